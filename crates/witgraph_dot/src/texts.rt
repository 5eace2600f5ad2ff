//! Texts as they stand in a picture.
ghost use Rattle.std.specs.Prelude.{Some};
ghost use Rattle.witgraph_dot.specs.Texts.{html_char, html_text, quoted_char, quoted_name, quoted_text};

use std::fmt;
use wit_resolve_graph::PackageName;

/// A text between the quotes of a label: what DOT takes for more than itself stands for itself.
#[derive(Clone, Copy)]
pub struct Quoted<'a>(pub &'a str);

impl fmt::Display for Quoted<'_> {
    ghost output = { λ text. Some (quoted_text text.0.now) };

    fn fmt<W: fmt::Write>(&self, f: &mut fmt::Formatter<W>) -> fmt::Result {
        for char in self.0.chars() {
            let quoted = QuotedChar(char);
            write!(f, "{quoted}")?;
        }
        Ok(())
    }
}

/// A character between the quotes of a label.
#[derive(Clone, Copy)]
struct QuotedChar(char);

impl fmt::Display for QuotedChar {
    ghost output = { λ char. Some (quoted_char char.0) };

    fn fmt<W: fmt::Write>(&self, f: &mut fmt::Formatter<W>) -> fmt::Result {
        let char = self.0;
        match char {
            '"' => f.write_str("\\\""),
            '\\' => f.write_str("\\\\"),
            '&' => f.write_str("&amp;"),
            _ => write!(f, "{char}"),
        }
    }
}

/// The name of a package between the quotes of a label.
#[derive(Clone, Copy)]
pub struct QuotedName<'a>(pub &'a PackageName);

impl fmt::Display for QuotedName<'_> {
    ghost output = { λ owner. Some (quoted_name owner.0.now) };

    fn fmt<W: fmt::Write>(&self, f: &mut fmt::Formatter<W>) -> fmt::Result {
        let namespace = Quoted(self.0.namespace.as_str());
        let name = Quoted(self.0.name.as_str());
        write!(f, "{namespace}:{name}")?;
        if let Some(version) = &self.0.version {
            write!(f, "@{version}")?;
        }
        Ok(())
    }
}

/// A text in a label of HTML, with its spaces and lines.
#[derive(Clone, Copy)]
pub struct Html<'a>(pub &'a str);

impl fmt::Display for Html<'_> {
    ghost output = { λ text. Some (html_text text.0.now) };

    fn fmt<W: fmt::Write>(&self, f: &mut fmt::Formatter<W>) -> fmt::Result {
        for char in self.0.chars() {
            let shown = HtmlChar(char);
            write!(f, "{shown}")?;
        }
        Ok(())
    }
}

/// A character in a label of HTML.
#[derive(Clone, Copy)]
struct HtmlChar(char);

impl fmt::Display for HtmlChar {
    ghost output = { λ char. Some (html_char char.0) };

    fn fmt<W: fmt::Write>(&self, f: &mut fmt::Formatter<W>) -> fmt::Result {
        let char = self.0;
        match char {
            '<' => f.write_str("&lt;"),
            '>' => f.write_str("&gt;"),
            '"' => f.write_str("&quot;"),
            '&' => f.write_str("&amp;"),
            ' ' => f.write_str("&#160;"),
            '\n' => f.write_str("<br align=\"left\"/>"),
            _ => write!(f, "{char}"),
        }
    }
}
