//! The wire to the nodes, which counts its puts, its asks and the faults of both.
ghost use Rattle.std.specs.Prelude.{◌≡◌};

/// One of the three nodes.
#[derive(Clone, Copy, Debug, PartialEq, Eq)]
pub enum Node {
    Zero,
    One,
    Two,
}

/// One call of a wire.
#[derive(Clone, Copy, Debug, PartialEq, Eq)]
pub enum Call {
    /// A block was put to the node.
    Put(Node),
    /// The node was asked.
    Ask(Node),
}

/// What became of a block that was put to a node.
#[derive(Clone, Copy)]
pub enum Delivery {
    /// The node took the block and said so.
    Done,
    /// The node did not take the block.
    Refused,
    /// The node took the block, and its answer was lost.
    Lost,
}

impl Delivery {
    ghost use Rattle.extent_node.specs.Faults as faults;

    /// Whether the node took the block and said so.
    pub fn is_done(self) -> bool
        ensures { result ≡ faults.is_done self }
    {
        matches!(self, Self::Done)
    }

    /// Whether the node took the block.
    pub fn is_taken(self) -> bool
        ensures { result ≡ faults.is_taken self }
    {
        !matches!(self, Self::Refused)
    }
}

/// The wire to the three nodes, over which blocks are put and nodes are asked (SOSP 2011, section 4.3).
///
/// A wire may give any delivery and any answer at each call, since no clause says which of them it gives. So what is proved over a
/// wire is proved for every delivery.
pub trait Wire {
    ghost use Rattle.extent_node.specs.Faults.{Calls, CountsAsk, CountsAskFault, CountsPut, CountsPutFault, is_done};

    /// How often a block was put to each node so far, and how often each node was asked: both up to 2^128 - 1.
    ghost calls: { Self → Calls };

    /// How many puts to each node were not Done so far, and how many asks of each node were answered no.
    ghost faults: { Self → Calls };

    /// Puts a block to the node.
    fn put(&mut self, node: Node) -> Delivery
        ensures called { CountsPut node (calls self.old) (calls self.new) }
        ensures counted { CountsPutFault node (is_done result) (faults self.old) (faults self.new) };

    /// Asks whether the node can be reached.
    fn ask(&mut self, node: Node) -> bool
        ensures called { CountsAsk node (calls self.old) (calls self.new) }
        ensures counted { CountsAskFault node result (faults self.old) (faults self.new) };
}
