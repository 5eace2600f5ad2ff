//! Where a text stops being JSON.
ghost use Rattle.std.specs.Prelude.{◌≡◌, ◌≤◌, IfOk, IfSome, length};
ghost use Rattle.wit_json_reading.specs.Stops.{stop_in};

use crate::fault::Expected;
use crate::syntax::{Bracket, Move, State, awaited, begun, may_end, next};
use json::MAX_DEPTH;
use std::alloc::{AllocError, Global};

/// The first place at which a text is no beginning of JSON, and what was expected there; its end where the text ends too
/// early. None where the text is JSON. The only error is want of memory.
pub(crate) fn first_stop(alloc: Global, text: &str) -> Result<Option<(usize, Expected)>, AllocError>
    ensures value { IfOk result (λ stop. stop ≡ stop_in text.now) }
    ensures within { IfOk result (λ stop. IfSome stop (λ it. it.0 ≤ length text.now)) }
{
    let bytes = text.as_bytes();
    let mut brackets: Vec<Bracket> = Vec::new(alloc);
    let mut state = State::Value;
    for index in 0..bytes.len() {
        let around = brackets.last().copied();
        match next(state, around, bytes[index]) {
            Move::To(then) => state = then,
            Move::Open(_) if brackets.len() >= MAX_DEPTH => {
                return Ok(Some((index, Expected::Nesting)));
            }
            Move::Open(bracket) => {
                brackets.push(bracket)?;
                state = begun(bracket);
            }
            Move::Close => {
                brackets.pop();
                state = State::ValueEnded;
            }
            Move::Stop => {
                return Ok(Some((index, Expected::Json(awaited(state, around)))));
            }
        }
    }
    let around = brackets.last().copied();
    if may_end(state, around) {
        return Ok(None);
    }
    Ok(Some((
        bytes.len(),
        Expected::UnfinishedJson(awaited(state, around)),
    )))
}
