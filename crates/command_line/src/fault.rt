// Why there is no command.

use thiserror::Error;

/// Why there is no command.
#[derive(Clone, Copy, Debug, PartialEq, Eq, Error)]
pub enum CommandFault {
    /// The words are no command.
    #[error("the words are no command")]
    Usage,
    #[error("out of memory")]
    OutOfMemory,
}
