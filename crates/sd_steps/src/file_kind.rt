ghost use Rattle.std.specs.Prelude.{◌≡◌};
ghost use Rattle.sd_steps.specs.Takings.{bytes_of, shelf_refusal};

use report::Refusal;
use sd_base::Quantity;

/// A kind of file that commands take or put.
#[derive(Clone, Copy, Debug, PartialEq, Eq)]
pub enum FileKind {
    /// A graph file, or a file of scenarios.
    Graph,
    Certificate,
    /// A file that `convert` or `expand` makes.
    Output,
}

impl FileKind {
    /// What bounds its bytes.
    pub(crate) fn bytes(&self) -> Quantity
        ensures { result ≡ bytes_of self.now }
    {
        match self {
            FileKind::Graph => Quantity::FileBytes,
            FileKind::Certificate | FileKind::Output => Quantity::CertificateBytes,
        }
    }

    /// The refusal where it can't be taken or put.
    pub(crate) fn refusal(&self) -> Refusal
        ensures { result ≡ shelf_refusal self.now }
    {
        match self {
            FileKind::Graph => Refusal::ShelfGraph,
            FileKind::Certificate => Refusal::ShelfCertificate,
            FileKind::Output => Refusal::ShelfOutput,
        }
    }
}
