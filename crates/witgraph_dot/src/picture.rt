//! The picture of a graph.
ghost use Rattle.std.specs.Prelude.{◌≡◌, ◌++◌, IfOk, OnOk, string_bytes};
ghost use Rattle.witgraph_dot.specs.Frames.{frame_texts};
ghost use Rattle.witgraph_dot.specs.Picture.{chosen_view, note_line, picture_text};
ghost use Rattle.witgraph_dot.specs.steps.Parts.{view_of};

use crate::choice::Choice;
use crate::drawing::write_arrows;
use crate::frame::write_frame;
use crate::listing::Listing;
use crate::scene::Scene;
use crate::texts::Html;
use std::alloc::{AllocError, Global};
use std::fmt::Write;
use wit_resolve_graph::{PackageId, Resolve};

/// What stands before the packages: what frames, interfaces and arrows look like.
const HEAD: &str = "digraph wit {
  rankdir=LR;
  compound=true;
  outputorder=edgesfirst;
  ranksep=0.7;
  nodesep=0.3;
  fontname=\"Helvetica\";
  fontsize=12;
  labeljust=l;
  node [fontname=\"Helvetica\", fontsize=12, shape=box, height=0.35, margin=\"0.12,0.04\", style=\"rounded,filled\", fillcolor=white];
  edge [fontname=\"Helvetica\", fontsize=10, arrowsize=0.7, color=\"#8a8a8a\"];
";

/// The lines below the picture, which say what the arrows mean.
const LEGEND: &str = "  labeljust=c;
  label=<<table border=\"0\" cellspacing=\"6\">
    <tr><td><font color=\"#6a6a6a\">&#8594; uses</font> &#160; <font color=\"#1f5fa8\">&#8594; imports</font> &#160; <font color=\"#d1660f\">&#8674; imports, added by elaboration</font> &#160; <font color=\"#2e7d32\">&#8594; exports</font></td></tr>
    <tr><td><font color=\"#6a6a6a\" point-size=\"10\">to a frame: to all in it &#160; to a world: to all that it imports</font></td></tr>
";

/// What stands after the note.
const END: &str = "  </table>>;
}
";

/// What a choice shows of a graph, with what lines list for its worlds, in DOT, and a note below it. The only error is want
/// of memory.
pub fn draw(
    alloc: Global,
    resolve: &Resolve,
    listing: &Listing,
    note: &str,
    choice: &Choice,
) -> Result<String, AllocError>
    ensures { IfOk result (λ text.
        string_bytes text
        ≡ picture_text (chosen_view choice.now resolve.now.graph listing.now) note.now) }
{
    let scene = Scene::of(alloc, resolve, listing, choice)?;
    let mut text = String::from_str(alloc, HEAD)?;
    write_frames(&scene, &mut text)?;
    write_arrows(alloc, &scene, &mut text)?;
    text.push_str(LEGEND)?;
    write_note(note, &mut text)?;
    text.push_str(END)?;
    Ok(text)
}

/// Writes the frames of the packages.
fn write_frames(scene: &Scene<'_>, text: &mut String) -> Result<(), AllocError>
    ensures { OnOk result (string_bytes text.new
        ≡ string_bytes text.old
        ++ frame_texts (view_of scene.now) 0 scene.now.resolve.now.graph.packages) }
{
    for (index, package) in scene.resolve.packages().iter().enumerate() {
        write_frame(scene, package, PackageId::from_index(index), text)?;
    }
    Ok(())
}

/// Writes a note on a ground of its own, where it says something.
fn write_note(note: &str, text: &mut String) -> Result<(), AllocError>
    ensures { OnOk result (string_bytes text.new ≡ string_bytes text.old ++ note_line note.now) }
{
    if note.is_empty() {
        return Ok(());
    }
    let note = Html(note);
    write!(
        text,
        "    <tr><td border=\"1\" align=\"left\" color=\"#c9b458\" bgcolor=\"#fff3c4\" cellpadding=\"6\"><font face=\"monospace\" point-size=\"11\">{note}</font></td></tr>\n"
    )
}
