ghost use Rattle.std.specs.Prelude.{◌≡◌, ◌≢◌, ◌⊎◌, ◌↔◌, IfErr};

use super::printing::NO_MEMORY;
use command_line::Word;
use std::env;
use std::io::{self, ErrorKind};
use std::rt::Env;

/// The status where the system does not tell the words. `run` never answers it.
const WORDS_UNTOLD: u8 = 7;

/// The words after the program's name, as the system tells them: empty ones, too. Where there are none the error is the
/// status with which the program ends: 7 where the system does not tell them as texts, as where one is no UTF-8, and 6 where
/// no memory is left.
pub fn system_words<R: Env + AllocGlobal>(rt: &R) -> Result<Vec<Word>, u8>
    ensures { IfErr result (λ status. (status ≡ 6) ⊎ (status ≡ 7)) }
{
    match words(rt) {
        Ok(words) => Ok(words),
        Err(error) => Err(status_of(error.kind())),
    }
}

/// The status where the words are not told for such a reason.
fn status_of(why: ErrorKind) -> u8
    ensures memory { (result ≡ 6) ↔ (why ≡ ErrorKind.OutOfMemory) }
    ensures untold { (result ≡ 7) ↔ (why ≢ ErrorKind.OutOfMemory) }
{
    if why == ErrorKind::OutOfMemory {
        NO_MEMORY
    } else {
        WORDS_UNTOLD
    }
}

/// The same, with the error as the system has it.
fn words<R: Env + AllocGlobal>(rt: &R) -> io::Result<Vec<Word>> {
    let mut words = Vec::new(rt.alloc());
    for text in env::args(rt)?.skip(1) {
        words.push(Word::from_string(text))?;
    }
    Ok(words)
}
