// The line of text that tells a call's answer, in memory that is handed in.
#![tactic(auto)]

ghost use Rattle.std.specs.Prelude.{◌≡◌, length, if◌then◌else◌, Ok, Err, nat_lt};
ghost use Rattle.faults.specs.declared.Fault.TheVariants.{AnswerMemory};
ghost use Rattle.answer_lines.specs.AnswerLines.{answer_line, fronted, least_memory};

mod text;

use faults::Fault;
use rules::Answer;
use text::answer_line;

// Every answer line fits into so much.
pub const LEAST_MEMORY: usize = 48;

// Writes the line of an answer to the front of the memory, and tells its length.
pub fn write_answer(memory: &mut [u8], line: u16, answer: Answer) -> Result<usize, Fault>
    ensures value { result ≡ (if nat_lt (length memory.old) least_memory then Err AnswerMemory else Ok (length (answer_line line answer))) }
    ensures after { memory.new ≡ (if nat_lt (length memory.old) least_memory then memory.old else fronted memory.old (answer_line line answer)) }
{
    if memory.len() < LEAST_MEMORY {
        return Err(Fault::AnswerMemory);
    }
    let text = answer_line(line, answer);
    memory[..text.len()].copy_from_slice(text.as_bytes());
    Ok(text.len())
}
