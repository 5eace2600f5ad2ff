//! Tracks of versions: the versions of one track can stand for each other, the greater for the less.
ghost use Rattle.std.specs.Prelude.{◌≡◌, IfOk, Some, string_bytes};
ghost use Rattle.std.specs.Option.{option_map};
ghost use Rattle.semver.specs.Identifiers.{parts_of};
ghost use Rattle.wit_names.specs.Track.{release_track, track_by, track_of, track_suffix, track_text};

use crate::package_name::PackageName;
use semver::BuildMetadata;
use std::alloc::{AllocError, Global};
use std::fmt;
use wit_values::Version;

/// The rule by which a version stands on a track.
#[derive(Clone, Copy, Debug, PartialEq, Eq)]
pub enum TrackRule {
    /// A pre-release stands on a track of its own.
    Published,
    /// A pre-release stands on the track of its release.
    WithPrereleases,
}

impl PackageName {
    /// The track of a version, and what remains of the version's text after the text of the track,
    /// None where nothing does: 1.2.3 is on 1.0.0 with `.2.3`, 0.2.1+b on 0.2.0 with `.1+b`. The
    /// only error is want of memory.
    ///
    /// Source: `version_compat_track` of wit-parser 0.263.0; SemVer 2.0.0.
    pub fn version_compat_track(
        alloc: Global,
        version: &Version,
    ) -> Result<(Version, Option<String>), AllocError>
        ensures track { IfOk result (λ r. r.0 ≡ track_of version.now) }
        ensures suffix { IfOk result (λ r. option_map string_bytes r.1 ≡ track_suffix version.now) }
    {
        let text = track_text(alloc, version)?;
        let suffix = track_suffix(alloc, version, text.as_str())?;
        Ok((track_of(alloc, version)?, suffix))
    }

    /// The text of a version's track, and what remains of the version's text after it, None where
    /// nothing does: of 1.2.3 `1` and `.2.3`, of 0.2.1+b `0.2` and `.1+b`. The only error is want
    /// of memory.
    ///
    /// Source: `version_compat_track_string` of wit-parser 0.263.0; SemVer 2.0.0.
    pub fn version_compat_track_string(
        alloc: Global,
        version: &Version,
    ) -> Result<(String, Option<String>), AllocError>
        ensures text { IfOk result (λ r. string_bytes r.0 ≡ track_text version.now) }
        ensures suffix { IfOk result (λ r. option_map string_bytes r.1 ≡ track_suffix version.now) }
    {
        let text = track_text(alloc, version)?;
        let suffix = track_suffix(alloc, version, text.as_str())?;
        Ok((text, suffix))
    }

    /// The track of a version by a rule: of 1.2.3-rc.1+b it is 1.2.3-rc.1 by the published rule, and
    /// 1.0.0 by the one with pre-releases. The only error is want of memory.
    ///
    /// Source: `version_compat_track` of wit-parser 0.263.0 for the published rule; the other is a rule
    /// of this project.
    pub fn track_by(
        alloc: Global,
        version: &Version,
        rule: TrackRule,
    ) -> Result<Version, AllocError>
        ensures { IfOk result (λ track. track ≡ track_by rule version.now) }
    {
        match rule {
            TrackRule::Published => track_of(alloc, version),
            TrackRule::WithPrereleases => Version::from_version(alloc, release_track(version)),
        }
    }
}

/// The track of a version.
fn track_of(alloc: Global, version: &Version) -> Result<Version, AllocError>
    ensures { IfOk result (λ track. track ≡ track_of version.now) }
{
    if version.pre().is_empty() {
        return Version::from_version(alloc, release_track(version));
    }
    let pre = version.as_version().pre.clone()?;
    let track = semver::Version {
        major: version.major(),
        minor: version.minor(),
        patch: version.patch(),
        pre,
        build: BuildMetadata::empty(),
    };
    Version::from_version(alloc, track)
}

/// The track of a release of these numbers.
fn release_track(version: &Version) -> semver::Version
    ensures { parts_of result ≡ release_track version.now.0 version.now.1 version.now.2 }
{
    match (version.major(), version.minor(), version.patch()) {
        (0, 0, patch) => semver::Version::new(0, 0, patch),
        (0, minor, _) => semver::Version::new(0, minor, 0),
        (major, _, _) => semver::Version::new(major, 0, 0),
    }
}

/// The text of a version's track.
fn track_text(alloc: Global, version: &Version) -> Result<String, AllocError>
    ensures { IfOk result (λ text. string_bytes text ≡ track_text version.now) }
{
    let track = TrackText(version);
    format!(in alloc; "{track}")
}

/// What remains of a version's text after the text of its track, None where nothing does.
fn track_suffix(alloc: Global, version: &Version, track: &str) -> Result<Option<String>, AllocError>
    requires { track.now ≡ track_text version.now }
    ensures { IfOk result (λ suffix. option_map string_bytes suffix ≡ track_suffix version.now) }
{
    let whole = format!(in alloc; "{version}")?;
    let text = whole.as_str();
    let suffix = &text[track.len()..];
    if suffix.is_empty() {
        return Ok(None);
    }
    Ok(Some(String::from_str(alloc, suffix)?))
}

/// The text of a version's track.
#[derive(Drop)]
struct TrackText<'a>(&'a Version);

impl<'a> fmt::Display for TrackText<'a> {
    ghost output = { λ s. Some (track_text s.0.now) };

    fn fmt<W: fmt::Write>(&self, f: &mut fmt::Formatter<W>) -> fmt::Result {
        let (major, minor, patch) = (self.0.major(), self.0.minor(), self.0.patch());
        let pre = self.0.pre();
        if !pre.is_empty() {
            return write!(f, "{major}.{minor}.{patch}-{pre}");
        }
        if major != 0 {
            return write!(f, "{major}");
        }
        if minor != 0 {
            return write!(f, "0.{minor}");
        }
        write!(f, "0.0.{patch}")
    }
}
