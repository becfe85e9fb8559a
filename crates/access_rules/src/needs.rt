//! What each operation needs from a shared access signature and from public access.
ghost use Rattle.std.specs.Prelude.{◌≡◌, Some, None};
ghost use Rattle.access_rules.specs.Needs.{need_of, of_keys_alone, of_letter, of_letter_or_level, of_block_list};

use stamp_types::{BlockKinds, Level, Op};

/// A permission of a shared access signature (`sp`: r, w, d, l).
#[derive(Clone, Copy, Debug, PartialEq, Eq)]
pub enum Letter {
    Read,
    Write,
    Delete,
    List,
}

/// What an operation needs from a shared access signature, and from public access. `None` means that this route never allows
/// the operation.
#[derive(Clone, Copy, Debug, PartialEq, Eq)]
pub struct Need {
    pub letter: Option<Letter>,
    pub level: Option<Level>,
}

const KEYS_ALONE: Need = Need {
    letter: None,
    level: None,
};

const fn of_letter(letter: Letter) -> Need
    ensures { result ≡ of_letter letter }
{
    Need {
        letter: Some(letter),
        level: None,
    }
}

const fn of_letter_or_level(letter: Letter, level: Level) -> Need
    ensures { result ≡ of_letter_or_level letter level }
{
    Need {
        letter: Some(letter),
        level: Some(level),
    }
}

// An uncommitted block is not content yet, so public access never shows one.
fn of_block_list(kinds: BlockKinds) -> Need
    ensures { result ≡ of_block_list kinds }
{
    match kinds {
        BlockKinds::Committed => of_letter_or_level(Letter::Read, Level::Blob),
        BlockKinds::Uncommitted | BlockKinds::All => of_letter(Letter::Read),
    }
}

/// What an operation needs. The key of the account allows every operation.
///
/// `kinds` are the blocks that Get Block List asks for; `None` asks for the committed blocks. Other operations do not use
/// `kinds`. Blob service REST reference, 2012-02-12, Delegating Access with a Shared Access Signature; Set Container ACL.
pub fn need_of(op: Op, kinds: Option<BlockKinds>) -> Need
    ensures { result ≡ need_of op kinds }
{
    match op {
        Op::ContainerProperties => Need {
            letter: None,
            level: Some(Level::Container),
        },
        Op::ListBlobs => of_letter_or_level(Letter::List, Level::Container),
        Op::GetBlob | Op::BlobProperties | Op::GetMetadata => {
            of_letter_or_level(Letter::Read, Level::Blob)
        }
        Op::GetBlockList => of_block_list(kinds.unwrap_or(BlockKinds::Committed)),
        Op::PutBlob | Op::SetMetadata | Op::PutBlock | Op::PutBlockList => of_letter(Letter::Write),
        Op::DeleteBlob => of_letter(Letter::Delete),
        Op::ListContainers
        | Op::CreateContainer
        | Op::SetContainerMetadata
        | Op::GetAcl
        | Op::SetAcl
        | Op::DeleteContainer => KEYS_ALONE,
    }
}
