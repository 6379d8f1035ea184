ghost use Rattle.std.specs.Prelude.{◌≡◌};
ghost use Rattle.line_files.specs.LineFaults.{fault_in_line, told};

use spec_flow_text::TextFault;
use spec_input::FileFault;

fn fault_in_line(number: u32, why: TextFault) -> FileFault
    ensures { result ≡ fault_in_line number why }
{
    match why {
        TextFault::OutOfMemory => FileFault::OutOfMemory,
        why => FileFault::Line { line: number, why },
    }
}

/// What was read of a line, with the line's number at what is wrong with it.
pub fn in_line<T: Drop>(number: u32, read: Result<T, TextFault>) -> Result<T, FileFault>
    ensures { result ≡ told number read }
{
    match read {
        Ok(value) => Ok(value),
        Err(why) => Err(fault_in_line(number, why)),
    }
}
