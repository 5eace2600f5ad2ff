//! Why the words of a line are no statement: which of them isn't what is expected there.
use crate::context::said_by;
use std::alloc::{AllocError, Global};
use wit_data::is_kebab_name;
use wit_script_lines::{after_prefix, tokens};

/// Why the words of a line are no statement.
pub fn word_reason(alloc: Global, line: &str) -> Result<String, AllocError> {
    let words = tokens(alloc, line)?;
    let Some((first, arguments)) = words.split_first() else {
        return Ok(String::new(alloc));
    };
    let Some(form) = form_of(first) else {
        return format!(in alloc; "no line begins with {first}");
    };
    if let Some(reason) = gate_reason(alloc, first, arguments)? {
        return Ok(reason);
    }
    for (index, argument) in arguments.iter().enumerate() {
        if let Some(kind) = kind_at(first, index) {
            if !fits(alloc, kind, argument)? {
                return misfit(alloc, kind, argument);
            }
        }
    }
    format!(in alloc; "{form} is expected")
}

/// Why an argument isn't what it has to be: a part of a path that is no kebab name, or its form.
fn misfit(alloc: Global, kind: Kind, argument: &str) -> Result<String, AllocError> {
    if let Some(part) = odd_part(kind, argument) {
        return format!(in alloc; "{part} is no kebab name");
    }
    let expected = kind.form();
    format!(in alloc; "{argument} is no {expected}")
}

/// The first part of a path of another package that is no kebab name.
fn odd_part(kind: Kind, argument: &str) -> Option<&str> {
    let argument = match kind {
        Kind::Path => argument,
        Kind::Entry => match argument.split_once('=') {
            Some((_, path)) => path,
            None => argument,
        },
        _ => return None,
    };
    let (namespace, rest) = argument.split_once(':')?;
    let (package, rest) = rest.split_once('/')?;
    let item = match rest.split_once('@') {
        Some((item, _)) => item,
        None => rest,
    };
    for part in [namespace, package, item] {
        if !part.is_empty() && !is_kebab_name(part) {
            return Some(part);
        }
    }
    None
}

/// The form of lines that begin with a word.
fn form_of(first: &str) -> Option<&'static str> {
    match first {
        "package" => Some("package NS:NAME[@VERSION]"),
        "interface" => Some("interface NAME"),
        "world" => Some("world NAME"),
        "type" => Some("type NAME TYPE"),
        "record" => Some("record NAME F:TYPE .."),
        "resource" => Some("resource NAME"),
        "use" => Some("use PATH NAME [NEW]"),
        "func" => Some("func SIG"),
        "import" => Some("import PATH or import LABEL=PATH"),
        "export" => Some("export PATH or export LABEL=PATH"),
        "import-func" => Some("import-func SIG"),
        "export-func" => Some("export-func SIG"),
        "include" => Some("include PATH [OLD=NEW ..]"),
        _ => command_form(first),
    }
}

/// The form of commands that begin with a word.
fn command_form(first: &str) -> Option<&'static str> {
    match first {
        "push" => Some("push alone"),
        "print" => Some("print PKG WORLD"),
        "select" => Some("select PKG [TEXT]"),
        "feature" => Some("feature NAME"),
        "all-features" => Some("all-features alone"),
        "tracks" => Some("tracks published or tracks with-prereleases"),
        "other" => Some("other alone"),
        "merge" => Some("merge alone"),
        "importize" => Some("importize PKG WORLD [NAME]"),
        "exportize" => Some("exportize PKG WORLD NAME [KEY ..]"),
        "semver" => Some("semver PKG WORLD"),
        _ => None,
    }
}

/// What an argument has to be.
#[derive(Clone, Copy)]
enum Kind {
    Package,
    Path,
    Entry,
    Function,
    Field,
    Rename,
}

impl Kind {
    /// How it is written.
    fn form(self) -> &'static str {
        match self {
            Kind::Package => "package name NS:NAME[@VERSION]",
            Kind::Path => "path NAME or NS:PKG/NAME[@VERSION]",
            Kind::Entry => "path NAME or NS:PKG/NAME[@VERSION], with LABEL= before it or without",
            Kind::Function => "function NAME(P:TYPE,..) or NAME(P:TYPE,..)->TYPE",
            Kind::Field => "field NAME:TYPE",
            Kind::Rename => "pair OLD=NEW",
        }
    }

    /// What stands before such an argument in a line that has it as its only one that may be wrong, and after it.
    fn around(self) -> (&'static str, &'static str) {
        match self {
            Kind::Package => ("package ", ""),
            Kind::Path => ("use ", " t"),
            Kind::Entry => ("import ", ""),
            Kind::Function => ("func ", ""),
            Kind::Field => ("record r ", ""),
            Kind::Rename => ("include w ", ""),
        }
    }
}

/// What the argument of an index has to be in lines that begin with a word, where more than its being there is asked.
fn kind_at(first: &str, index: usize) -> Option<Kind> {
    match (first, index) {
        ("package" | "print" | "select" | "importize" | "exportize" | "semver", 0) => {
            Some(Kind::Package)
        }
        ("use" | "include", 0) => Some(Kind::Path),
        ("import" | "export", 0) => Some(Kind::Entry),
        ("func" | "import-func" | "export-func", 0) => Some(Kind::Function),
        ("record", 0) => None,
        ("record", _) => Some(Kind::Field),
        ("include", _) => Some(Kind::Rename),
        _ => None,
    }
}

/// Whether an argument is what it has to be.
fn fits(alloc: Global, kind: Kind, argument: &str) -> Result<bool, AllocError> {
    if is_gate(argument) {
        return Ok(true);
    }
    let (before, after) = kind.around();
    let line = format!(in alloc; "{before}{argument}{after}")?;
    Ok(said_by(alloc, &line)?.is_some())
}

fn is_gate(argument: &str) -> bool {
    after_prefix("@since=", argument).is_some() || after_prefix("@unstable=", argument).is_some()
}

/// Why the gate that ends a line of a package isn't one, where it isn't.
fn gate_reason(
    alloc: Global,
    first: &str,
    arguments: &[&str],
) -> Result<Option<String>, AllocError> {
    if command_form(first).is_some() || first == "package" {
        return Ok(None);
    }
    let Some(last) = arguments.last() else {
        return Ok(None);
    };
    if !is_gate(last) {
        return Ok(None);
    }
    let line = format!(in alloc; "resource r {last}")?;
    if said_by(alloc, &line)?.is_some() {
        return Ok(None);
    }
    Ok(Some(format!(in alloc; "{last} is no gate @since=VERSION or @unstable=FEATURE")?))
}
