//! The program's words: its arguments, behind its own name.
ghost use Rattle.std.specs.Prelude.{◌≡◌, ◌⊎◌, IfErr, IfOk, IsUtf8, string_bytes};

use std::alloc::Global;
use std::env::{Env, FillError};
use transcript::Status;

/// A word with more bytes than this is none that the program knows.
const WORD_ROOM: usize = 256;

/// The words behind the program's name, which isn't looked at: it need not be text.
///
/// # Errors
///
/// `BadWords` where a word isn't UTF-8 or is longer than any that is known, `NoMemory`.
pub fn words_of<E: Env>(env: &E, alloc: Global) -> Result<Vec<String>, Status>
    ensures { IfErr result (λ status. (status ≡ Status.BadWords) ⊎ (status ≡ Status.NoMemory)) }
{
    let mut words = Vec::new(alloc);
    for place in 1..usize::MAX {
        let mut room = [0; WORD_ROOM];
        match env.arg(place, &mut room) {
            Ok(len) => {
                let word = word_of(alloc, &room[..len])?;
                if words.push(word).is_err() {
                    return Err(Status::NoMemory);
                }
            }
            Err(FillError::NotPresent) => break,
            Err(FillError::TooLong) => return Err(Status::BadWords),
        }
    }
    Ok(words)
}

/// The word that these bytes are, `BadWords` where they are no UTF-8.
fn word_of(alloc: Global, bytes: &[u8]) -> Result<String, Status>
    ensures word { IfOk result (λ word. string_bytes word ≡ bytes.now) }
    ensures status { IfErr result (λ status.
        ((status ≡ Status.BadWords) × ¬ (IsUtf8 bytes.now)) ⊎ (status ≡ Status.NoMemory)) }
{
    let Ok(word) = str::from_utf8(bytes) else {
        return Err(Status::BadWords);
    };
    match String::from_str(alloc, word) {
        Ok(word) => Ok(word),
        Err(_) => Err(Status::NoMemory),
    }
}
