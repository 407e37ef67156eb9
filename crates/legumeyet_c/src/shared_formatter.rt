//! Formatters that any number of threads use at once: `legumeyet_formatter_share` and `legumeyet_shared_formatter_close`.

ghost use Rattle.std.specs.Prelude.{◌≡◌, None, IsSome};
ghost use Rattle.legumeyet_c_values.specs.Putting.{Answers};
ghost use Rattle.legumeyet_c.specs.Opening.{IsClosing};
ghost use Rattle.legumeyet_c.specs.Views.{format_content, format_open, shared_format_content, shared_format_open};

use crate::handles::FormatterHandle;
use crate::held_formatter::HeldFormatter;
use crate::shared_handles::SharedFormatterHandle;
use crate::sharing::{close_shared, share};
use legumeyet_c_values::status_of;
use std::alloc::Global;

/// Shares an open formatter: from now on any number of threads use it at once, by the shared handle, and it stays for
/// the rest of the run. The handle that it was opened by is closed, where the call returns 0; what the shared one had
/// open stays too. Of a kept book what texts are read with is made; where memory for it is refused, and of another book,
/// it is made for each text.
///
/// Returns 0; 2, the handle is closed.
#[unsafe(no_mangle)]
pub extern "C" fn legumeyet_formatter_share(
    alloc: Global,
    formatter: &mut FormatterHandle,
    shared: &mut SharedFormatterHandle,
) -> i32
    ensures value { IsSome (format_open formatter.old)
        → shared_format_content shared.new ≡ format_content formatter.old }
    ensures gone { IsSome (format_open formatter.old) → format_content formatter.new ≡ None }
    ensures told { Answers (IsClosing (format_open formatter.old)) result }
    ensures same { format_open formatter.old ≡ None → format_content formatter.new ≡ format_content formatter.old }
    ensures unshared { format_open formatter.old ≡ None
        → shared_format_content shared.new ≡ shared_format_content shared.old }
{
    status_of(share::<HeldFormatter>(alloc, &mut formatter.handle, &mut shared.handle))
}

/// Closes a shared handle. The formatter stays, and so do other handles that it was copied to.
///
/// Returns 0; 2, where it was closed already.
#[unsafe(no_mangle)]
pub extern "C" fn legumeyet_shared_formatter_close(formatter: &mut SharedFormatterHandle) -> i32
    ensures closed { shared_format_open formatter.new ≡ None }
    ensures gone { IsSome (shared_format_open formatter.old) → shared_format_content formatter.new ≡ None }
    ensures same { shared_format_open formatter.old ≡ None
        → shared_format_content formatter.new ≡ shared_format_content formatter.old }
    ensures told { Answers (IsClosing (shared_format_open formatter.old)) result }
{
    status_of(close_shared::<HeldFormatter>(&mut formatter.handle))
}
