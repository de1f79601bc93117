//! How a whole call goes from one step to the next on its fast path.

/// The state that the operation continues in. If the caller names a line, it is what the operation
/// has read at that line. If the step leads elsewhere, the calling function returns what the step
/// gave.
#[macro_export]
macro_rules! fast_step {
    ($step:expr) => {
        match $step {
            (pass, $crate::Next::On(at)) => (pass, at),
            other => {
                $crate::aside();
                return other;
            }
        }
    };
    ($step:expr, $line:pat => $($read:ident),*) => {
        match $step {
            (pass, $crate::Next::On(at)) => match at {
                $line => (pass, $($read,)*),
                at => {
                    $crate::aside();
                    return (pass, $crate::Next::On(at));
                }
            },
            other => {
                $crate::aside();
                return other;
            }
        }
    };
}
