//! Changes of a container.
ghost use Rattle.std.specs.Prelude.{◌≡◌, ◌↔◌, IsSome, IfSome, IsSomeAnd, IsTrue, map};
ghost use Rattle.std.specs.Option.{option_copied};
ghost use Rattle.stamp_types.specs.Pieces.{piece_len};

use crate::act::Act;
use crate::change_fits::is_change;
use crate::pieces::Pieces;
use stamp_values::Key;
use std::marker::Model;

/// A change of a container, as the container's log keeps it, seen as key and act.
#[derive(Clone, PartialEq, Eq, Drop)]
pub struct Change {
    key: Key,
    act: Act,
}

impl Model for Change {
    ghost use Rattle.std.specs.Prelude.{IsTrue};
    ghost use Rattle.stamp_types.specs.Changes.{KeyedAct, is_change};

    ghost Value = { KeyedAct };

    ghost view = { λ c. record { key = c.key; act = c.act } };

    ghost invariant = { λ c. IsTrue (is_change (record { key = c.key; act = c.act })) };

    ghost inverse = { λ v. record { key = v.key; act = v.act } };
}

impl Change {
    ghost use Rattle.stamp_types.specs.Changes.{is_change, content_of, change_with};

    /// The change, or `None` if no container changes in this way: a name is bad, a block is in
    /// several pieces, a list or a blob is over its limit, the ids of blocks are missing, not in
    /// order or not of one length, or a row says nothing.
    pub fn new(key: Key, act: Act) -> Option<Self>
        ensures valid { IsSome result ↔ IsTrue (is_change (record { key = key; act = act })) }
        ensures value { IfSome result (λ c. c ≡ record { key = key; act = act }) }
    {
        if is_change(&key, &act) {
            Some(Self { key, act })
        } else {
            drop(act);
            drop(key);
            None
        }
    }

    /// The change of parts that are known to be a change.
    pub fn fitting(key: Key, act: Act) -> Self
        requires { IsTrue (is_change (record { key = key; act = act })) }
        ensures { result ≡ record { key = key; act = act } }
    {
        Self { key, act }
    }

    /// The key of the container that it changes.
    pub fn key(&self) -> &Key
        ensures value { result.now ≡ self.now.key }
        ensures valid { IsTrue (is_change self.now) }
    {
        &self.key
    }

    /// What it does.
    pub fn act(&self) -> &Act
        ensures value { result.now ≡ self.now.act }
        ensures valid { IsTrue (is_change self.now) }
    {
        &self.act
    }

    /// The key and the act.
    pub fn into_parts(self) -> (Key, Act)
        ensures key { result.0 ≡ self.key }
        ensures act { result.1 ≡ self.act }
        ensures valid { IsTrue (is_change self) }
    {
        (self.key, self.act)
    }

    /// The content that comes with Put Blob and Put Block.
    pub fn content(&self) -> Option<&Pieces>
        ensures { option_copied result ≡ content_of self.now.act }
    {
        self.act.content()
    }

    /// The same change with other content of as many pieces, which have the same lengths.
    pub fn with_content(self, content: Pieces) -> Self
        requires { IsSomeAnd (content_of self.act) (λ ps.
            map piece_len ps ≡ map piece_len content) }
        ensures { result ≡ change_with self content }
    {
        let Self { key, act } = self;
        Self {
            key,
            act: act.with_content(content),
        }
    }

    /// Whether key and act are equal.
    #[tactic(auto, using(crate::proofs::ChangesEqual::change_decides))]
    pub fn same(&self, other: &Self) -> bool
        ensures { IsTrue result ↔ (self.now ≡ other.now) }
    {
        self == other
    }
}
