// The texts of a plan that a program can print: each is a type, so that a program names the text, and the type says that it is what is written.
// And `run_text`, what such a program does.
ghost use Rattle.memory.specs.Lent.{slices_in};
ghost use Rattle.rule.specs.Graph.{Graph};
ghost use Rattle.std.specs.Prelude.{List, ℕ, ◌≡◌};
ghost use Rattle.wave_lines.specs.Calls.{text_result, write_text};
ghost use Rattle.list_program.specs.Answers.{Sheet, Poster, text_of};

use crate::answer::answer_list;
use crate::input::{LIST_BYTES, read_input};
use memory::PlanMemory;
use poster_writer::{LONGEST_POSTER, write_poster};
use rule::Refusal;
use sheet_writer::write_sheet;

// A text of a plan: which it is, and the function that writes it.
pub trait PlanText {
    ghost text: { Graph → List ℕ };

    // Writes the text of the plan to the front of out.
    fn write(plan: PlanMemory, out: &mut [u8]) -> Result<usize, Refusal>
        ensures { text_result result out.new ≡ write_text text (slices_in plan.entry) plan.entry.tally out.old };
}

// The sheet.
pub struct Sheet;

impl PlanText for Sheet {
    ghost text = { text_of Sheet };

    #[tactic(auto, unfolding(crate::specs::Answers::text_of))]
    fn write(plan: PlanMemory, out: &mut [u8]) -> Result<usize, Refusal> {
        write_sheet(plan, out)
    }
}

// The poster.
pub struct Poster;

impl PlanText for Poster {
    ghost text = { text_of Poster };

    #[tactic(auto, unfolding(crate::specs::Answers::text_of))]
    fn write(plan: PlanMemory, out: &mut [u8]) -> Result<usize, Refusal> {
        write_poster(plan, out)
    }
}

// Writes the text of standard input's list, or its refusal, to standard output. A system error is told on standard error.
pub fn run_text<W: PlanText>(rt: &(impl Input + Print + Eprint)) {
    let mut list = [0u8; LIST_BYTES];
    let Some(bytes) = read_input(rt, &mut list) else {
        let _ = rt.eprint("standard input cannot be read\n");
        return;
    };
    // The poster is the longest text.
    let mut out = [0u8; LONGEST_POSTER];
    let length = answer_list::<W>(&list[..bytes], &mut out);
    if rt.write_all(&out[..length]).is_err() {
        let _ = rt.eprint("standard output cannot be written\n");
    }
}
