//! Paths, names of packages, and names that are taken over.
ghost use Rattle.std.specs.Prelude.{◌<◌, length, OnOk};

use crate::keyword::Keyword;
use crate::read_fault::ReadFault;
use crate::reading::cursor::Cursor;
use crate::syntax::{PackagePath, Path, Renaming};
use crate::token::Sign;
use wit_values::Items;

impl<'a> Cursor<'a> {
    /// Takes the name of a package: `namespace:name`, and a version where it has one.
    pub fn package_path(&mut self) -> Result<PackagePath, ReadFault>
        ensures { OnOk result (length self.new.rest.now < length self.old.rest.now) }
    {
        let namespace = self.name()?;
        self.expect_sign(Sign::Colon)?;
        let name = self.name()?;
        let version = self.version_behind_at()?;
        Ok(PackagePath {
            namespace,
            name,
            version,
        })
    }

    /// Takes a path: a name, or `namespace:name/name` and a version where it has one.
    pub fn path(&mut self) -> Result<Path, ReadFault>
        ensures { OnOk result (length self.new.rest.now < length self.old.rest.now) }
    {
        let first = self.name()?;
        if !self.takes(Sign::Colon) {
            return Ok(Path {
                package: None,
                name: first,
            });
        }
        let second = self.name()?;
        self.expect_sign(Sign::Slash)?;
        let name = self.name()?;
        let version = self.version_behind_at()?;
        Ok(Path {
            package: Some(PackagePath {
                namespace: first,
                name: second,
                version,
            }),
            name,
        })
    }

    /// Takes the names that `use` takes over, up to the brace behind them.
    pub fn used_names(&mut self) -> Result<Items<Renaming>, ReadFault>
        ensures { OnOk result (length self.new.rest.now < length self.old.rest.now) }
    {
        let mut names = Items::new(self.alloc);
        while !self.takes(Sign::RightBrace) {
            let name = self.name()?;
            let new = self.name_behind_as(name)?;
            names.push(Renaming { name, new })?;
            if !self.goes_on(Sign::RightBrace)? {
                break;
            }
        }
        Ok(names)
    }

    /// Takes the names that `include` takes over, up to the brace behind them.
    pub fn included_names(&mut self) -> Result<Items<Renaming>, ReadFault>
        ensures { OnOk result (length self.new.rest.now < length self.old.rest.now) }
    {
        let mut names = Items::new(self.alloc);
        while !self.takes(Sign::RightBrace) {
            let name = self.name()?;
            self.expect_word(Keyword::As)?;
            let new = self.name()?;
            names.push(Renaming { name, new })?;
            if !self.goes_on(Sign::RightBrace)? {
                break;
            }
        }
        Ok(names)
    }
}
