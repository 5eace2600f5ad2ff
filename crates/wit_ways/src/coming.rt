//! What comes with a command: packages, or a graph.
ghost use Rattle.std.specs.Prelude.{◌≡◌, ◌∷◌, [], IfOk, OnOk, map, ◌++◌};
ghost use Rattle.wit_ways.specs.Coming.{coming_graph, coming_packages, joined, placed_packages};

use crate::arrow::Arrow;
use crate::entries::WorldSide;
use crate::foreign_home::ForeignHomes;
use crate::graph_arrow::graph_arrows;
use crate::include::Include;
use crate::package_arrow::{add_includes, add_worlds, package_arrows, package_dependencies};
use crate::world_name::{WorldPlace, graph_worlds};
use std::alloc::{AllocError, Global};
use wit_data::{Items, UnresolvedPackage, UnresolvedPackageGroup};
use wit_graph_data::{Features, Graph};

/// What leads where in what comes, and where its worlds stand.
#[derive(Drop)]
pub struct Coming {
    /// Which package names which, where packages come.
    pub dependencies: Items<Arrow>,
    /// Which interface uses which, what worlds export, and of a graph which package depends on which.
    pub arrows: Items<Arrow>,
    pub includes: Items<Include>,
    pub worlds: Items<WorldPlace>,
}

impl Coming {
    /// Nothing.
    fn new(alloc: Global) -> Coming
        ensures { result ≡ record { dependencies = []; arrows = []; includes = []; worlds = [] } }
    {
        Coming {
            dependencies: Items::new(alloc),
            arrows: Items::new(alloc),
            includes: Items::new(alloc),
            worlds: Items::new(alloc),
        }
    }

    /// A graph, with spans so many positions further on.
    pub fn of_graph(alloc: Global, offset: u32, graph: &Graph) -> Result<Coming, AllocError>
        ensures { IfOk result (λ coming. coming ≡ coming_graph offset graph.now) }
    {
        let mut coming = Coming::new(alloc);
        coming.arrows = graph_arrows(alloc, offset, graph, WorldSide::Exports)?;
        coming.worlds = graph_worlds(alloc, offset, graph)?;
        Ok(coming)
    }

    /// The packages of groups under features, where the files of the first group begin at this position and those of the
    /// others follow. Groups whose files begin past 4294967295 are left out.
    pub fn of_groups(
        alloc: Global,
        features: &Features,
        offset: u32,
        main: &UnresolvedPackageGroup,
        deps: &[UnresolvedPackageGroup],
    ) -> Result<Coming, AllocError>
        ensures { IfOk result (λ coming.
            coming
            ≡ coming_packages features.now (placed_packages offset (main.now ∷ deps.now))) }
    {
        let mut coming = Coming::new(alloc);
        coming.add_group(alloc, features, offset, main)?;
        let mut end = u64::from(offset) + u64::from(main.source_map.end());
        for group in deps {
            let Ok(offset) = u32::try_from(end) else {
                return Ok(coming);
            };
            coming.add_group(alloc, features, offset, group)?;
            end = u64::from(offset) + u64::from(group.source_map.end());
        }
        Ok(coming)
    }

    /// Adds the packages of a group, the nested ones before the main one.
    fn add_group(
        &mut self,
        alloc: Global,
        features: &Features,
        offset: u32,
        group: &UnresolvedPackageGroup,
    ) -> Result<(), AllocError>
        ensures { OnOk result (self.new
            ≡ joined self.old
            (coming_packages features.now
            (map (λ p. (offset, p)) (group.now.nested ++ group.now.main ∷ [])))) }
    {
        for package in group.nested.as_slice() {
            self.add_package(alloc, features, offset, package)?;
        }
        self.add_package(alloc, features, offset, &group.main)
    }

    /// Adds a package.
    fn add_package(
        &mut self,
        alloc: Global,
        features: &Features,
        offset: u32,
        package: &UnresolvedPackage,
    ) -> Result<(), AllocError>
        ensures { OnOk result (self.new
            ≡ joined self.old (coming_packages features.now ((offset, «package».now) ∷ []))) }
    {
        let dependencies = package_dependencies(alloc, offset, package)?;
        self.dependencies.append(dependencies)?;
        let homes = ForeignHomes::of(alloc, package)?;
        let arrows = package_arrows(alloc, features, offset, package, &homes)?;
        self.arrows.append(arrows)?;
        add_includes(features, offset, package, &homes, &mut self.includes)?;
        add_worlds(offset, package, &homes, &mut self.worlds)
    }
}
