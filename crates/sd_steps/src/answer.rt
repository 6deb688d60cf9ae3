use crate::file_kind::FileKind;
use sd_base::{Rows, Text};

/// What answers a command: the text that is sent, and the file that is put before, where one is.
#[derive(Drop)]
pub struct Answer {
    pub text: Rows<u8>,
    pub put: Option<Put>,
}

/// A file that is put under a name.
#[derive(Drop)]
pub struct Put {
    pub kind: FileKind,
    pub name: Text,
    pub bytes: Rows<u8>,
}
