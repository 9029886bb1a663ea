ghost use Rattle.std.specs.Prelude.{◌≡◌, ◌≤◌, length};
ghost use Rattle.ax_state.specs.Setting.{processor_number};

use ax_sheet::Processor;
use ax_values::Name;

/// The number of the processor of this name; how many there are, where none has it.
pub(crate) fn number_of(processors: &[Processor], name: &Name) -> u32
    requires { length processors.now ≤ 16 }
    ensures { result ≡ processor_number processors.now name.now }
{
    for (number, processor) in processors.iter().enumerate() {
        if processor.name.same(name) {
            return number as u32;
        }
    }
    processors.len() as u32
}
