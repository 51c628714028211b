// Reading all of an input and writing all of an output. A failed read is told from the end of the input,
// and a failed write is told on another output, standard error in a program.
#![tactic(auto)]

ghost use Rattle.console.specs.Reading.{ReadInto, TakesNext, EndsAtNone, EndsShort};
ghost use Rattle.console.specs.Writing.{Wrote, WroteOrTold};

use std::io::{ErrorKind, Read, Result, Write};

// One read: so many bytes, 0 at the end of the input. A function of its own, since the loop over it is proved from these three clauses.
fn read_some<R: Read>(input: &mut R, part: &mut [u8]) -> Result<usize>
    ensures counted { ReadInto result part.new }
    ensures next { TakesNext (R.remaining input.old) (R.remaining input.new) result part.new }
    ensures ended { EndsAtNone (R.remaining input.new) result part.new }
{
    input.read(part)
}

// Reads to the end of the input, or until the buffer is full: so many bytes at the buffer's start. Here and in `write_whole` a step is what the call took, which no range
// fits; the library's own loops say nothing of the bytes after a failure.
pub fn read_all<R: Read>(input: &mut R, buffer: &mut [u8]) -> Result<usize>
    ensures counted { ReadInto result buffer.new }
    ensures next { TakesNext (R.remaining input.old) (R.remaining input.new) result buffer.new }
    ensures ended { EndsShort (R.remaining input.new) result buffer.new }
{
    let mut done = 0;
    while done < buffer.len() {
        let more = read_some(input, &mut buffer[done..])?;
        if more == 0 {
            return Ok(done);
        }
        done += more;
    }
    Ok(done)
}

// Writes all of the text, or stops at the first write that takes nothing or fails.
pub fn write_whole<W: Write>(output: &mut W, text: &[u8]) -> Result<()>
    ensures { Wrote (W.contents output.old) (W.contents output.new) text.now result }
{
    let mut done = 0;
    while done < text.len() {
        let more = output.write(&text[done..])?;
        if more == 0 {
            return Err(ErrorKind::WriteZero.into());
        }
        done += more;
    }
    Ok(())
}

// Writes the text to the output. Where that fails, the message goes to the other one, standard error in a program, or as much of it as can be written.
#[tactic(auto, using(crate::proofs::Written::in_part))]
pub fn write_or_tell<W: Write, E: Write>(
    output: &mut W,
    text: &[u8],
    errors: &mut E,
    message: &[u8],
) -> Result<()>
    ensures { WroteOrTold (W.contents output.old) (W.contents output.new) text.now
        (E.contents errors.old) (E.contents errors.new) message.now result }
{
    if let Err(error) = write_whole(output, text) {
        let _told = write_whole(errors, message);
        return Err(error);
    }
    Ok(())
}
