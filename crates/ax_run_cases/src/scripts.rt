use ax_case_lines::{CaseFault, CaseLine, case_named, first_word, u32_of};
use ax_script::{Plan, ScriptFault, read};
use ax_values::{write_number, write_u32};
use std::alloc::Global;

/// What is done with the script, or asked of its reader.
#[derive(Clone, Copy)]
pub(crate) enum ScriptCase {
    Head,
    Script,
    Line,
    Fill,
    Plan,
    Read,
}

impl ScriptCase {
    pub(crate) fn named(word: &[u8]) -> Option<ScriptCase> {
        case_named!(word;
            b"head" => ScriptCase::Head,
            b"script" => ScriptCase::Script,
            b">" => ScriptCase::Line,
            b"fill" => ScriptCase::Fill,
            b"plan" => ScriptCase::Plan,
            b"read" => ScriptCase::Read
        )
    }
}

/// The front that scripts have in common, and the script that is being written.
#[derive(Drop)]
pub(crate) struct Scripts {
    head: Vec<u8>,
    script: Vec<u8>,
}

impl Scripts {
    pub(crate) fn new(alloc: Global) -> Scripts {
        Scripts {
            head: Vec::new(alloc),
            script: Vec::new(alloc),
        }
    }

    pub(crate) fn script(&self) -> &[u8] {
        &self.script
    }

    /// The head, and after it a text.
    pub(crate) fn with(&self, alloc: Global, text: &[u8]) -> Result<Vec<u8>, CaseFault> {
        let mut script = self.head.as_slice().to_vec(alloc)?;
        script.extend_from_slice(text)?;
        Ok(script)
    }

    pub(crate) fn perform(
        &mut self,
        case: ScriptCase,
        line: &mut CaseLine,
    ) -> Result<(), CaseFault> {
        let (alloc, text, out) = (line.alloc, line.text.as_slice(), &mut line.out);
        match case {
            ScriptCase::Head => self.head = text.to_vec(alloc)?,
            ScriptCase::Script => self.script = self.with(alloc, text)?,
            ScriptCase::Line => {
                self.script.extend_from_slice(text)?;
                self.script.push(b'\n')?;
                out.extend_from_slice(b"> ")?;
                out.extend_from_slice(text)?;
            }
            ScriptCase::Fill => self.fill(text)?,
            ScriptCase::Plan => write_read(alloc, &self.script, out)?,
            ScriptCase::Read => {
                let script = self.with(alloc, text)?;
                write_read(alloc, &script, out)?;
            }
        }
        Ok(())
    }

    /// Adds a text so many times: `COUNT TEXT`.
    fn fill(&mut self, text: &[u8]) -> Result<(), CaseFault> {
        let (count, text) = first_word(text);
        for _ in 0..u32_of(count)? {
            self.script.extend_from_slice(text)?;
        }
        Ok(())
    }
}

/// What the reader makes of a script: its first fault, or how many steps there are, and how many turns.
fn write_read(alloc: Global, script: &[u8], out: &mut Vec<u8>) -> Result<(), CaseFault> {
    match read(alloc, script) {
        Ok(plan) => {
            out.extend_from_slice(b"steps ")?;
            write_number(count_steps(&plan) as u64, out)?;
            out.extend_from_slice(b" turns ")?;
            write_number(plan.schedule().parts().len() as u64, out)?;
            Ok(())
        }
        Err(ScriptFault::Wrong { line, kind }) => {
            write_u32(line, out)?;
            out.push(b' ')?;
            out.extend_from_slice(kind.word())?;
            Ok(())
        }
        Err(ScriptFault::Memory) => Err(CaseFault::Memory),
    }
}

fn count_steps(plan: &Plan) -> usize {
    let mut steps = 0usize;
    for queue in plan.orders().parts() {
        steps = steps.saturating_add(queue.parts().len());
    }
    steps
}
