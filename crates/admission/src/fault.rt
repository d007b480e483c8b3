// Why an image is refused.
ghost use Rattle.std.specs.Prelude.{◌≡◌};
ghost use Rattle.admission.specs.FirstFault.{numbered};

// The rejection, a case for each number of the format, and the node that it applies to. The header has no node.
#[derive(Clone, Copy, Debug)]
pub enum ImageFault {
    Header,
    Kind(u32),
    Length(u32),
    Table(u32),
    Child(u32),
    Height(u32),
    Buffer(u32),
    Order(u32),
    Reach(u32),
    View(u32),
}

impl ImageFault {
    // The rejection's number, 1 to 10, and its node, 0 for the header.
    pub fn numbered(self) -> (u32, u32)
        ensures { result ≡ numbered self }
    {
        match self {
            ImageFault::Header => (1, 0),
            ImageFault::Kind(node) => (2, node),
            ImageFault::Length(node) => (3, node),
            ImageFault::Table(node) => (4, node),
            ImageFault::Child(node) => (5, node),
            ImageFault::Height(node) => (6, node),
            ImageFault::Buffer(node) => (7, node),
            ImageFault::Order(node) => (8, node),
            ImageFault::Reach(node) => (9, node),
            ImageFault::View(node) => (10, node),
        }
    }
}
