// Which layout the library has, for callers in C: a program built with the header of another one can tell.
ghost use Rattle.std.specs.Prelude.{◌≡◌};
ghost use Rattle.rushhopper.specs.Layouts.{layout_number};

// Raised by every request that moves a struct or a lent memory; `layout_number`, the header and the wrapper have the same.
const LAYOUT: u32 = 1;

#[unsafe(no_mangle)]
pub extern "C" fn rushhopper_layout() -> u32
    ensures { result ≡ layout_number }
{
    LAYOUT
}
