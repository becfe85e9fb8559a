//! Laws of the content of containers and of acts. Each law is the contract of a function that does
//! nothing.
ghost use Rattle.std.specs.Prelude.{◌≡◌, ◌↔◌, ℕ, List, Some, None, IfSome, length};
ghost use Rattle.std.specs.FinMap as finite;
ghost use Rattle.stamp_types.specs.Changes.{KeyedAct, act_with, content_of};
ghost use Rattle.stamp_types.specs.Pieces.{pieces_len};
ghost use Rattle.stamp_types.specs.World.{Part, World, changed, changed_in, no_part, part_value, same_pieces, world_value};
ghost use Rattle.stamp_types.specs.Contents.{EachActContent, EachContent, EachWorldContent};
ghost use Rattle.stamp_types.specs.declared.act.Act.{Act};
ghost use Rattle.stamp_types.specs.declared.piece.Piece.{Piece};

/// What is read in two steps is what is read in one step. What is read after a change is what the
/// change leaves of what was read before it.
pub fn content_is_read_in_steps_or_at_once<C, D, E>()
    ensures steps { (f : C → D) (g : D → E) (p : Part C)
        → part_value g (part_value f p) ≡ part_value (λ c. g (f c)) p }
    ensures change { (f : List Piece → C) (g : C → D) (a : Act) (p : Part C)
        → part_value g (changed f a p) ≡ changed (λ ps. g (f ps)) a (part_value g p) }
    ensures pieces { (f : List Piece → C) (a : Act) (p : Part (List Piece))
        → part_value f (changed same_pieces a p) ≡ changed f a (part_value f p) }
    ensures world_steps { (f : C → D) (g : D → E) (w : World C)
        → world_value g (world_value f w) ≡ world_value (λ c. g (f c)) w }
    ensures world_change { (f : List Piece → C) (g : C → D) (w : World C) (c : KeyedAct)
        → world_value g (changed_in f w c) ≡ changed_in (λ ps. g (f ps)) (world_value g w) c }
{}

/// Two functions that agree on each content of a container read it as the same container. Two
/// functions that agree on each content that an act brings read it as the same change. So bytes
/// that are as long as their pieces give the sizes of the pieces, and an act may bring other pieces
/// that mean the same.
pub fn containers_are_alike_if_each_content_is<C, D>()
    ensures part { (f g : C → D) (p : Part C) → EachContent (λ c. f c ≡ g c) p
        → part_value f p ≡ part_value g p }
    ensures world { (f g : C → D) (w : World C) → EachWorldContent (λ c. f c ≡ g c) w
        → world_value f w ≡ world_value g w }
    ensures sizes { (f : List Piece → List ℕ) (p : Part (List Piece))
        → EachContent (λ ps. length (f ps) ≡ pieces_len ps) p
        → part_value length (part_value f p) ≡ part_value pieces_len p }
    ensures change { (f g : List Piece → D) (a : Act) (p : Part D)
        → EachActContent (λ ps. f ps ≡ g ps) a → changed f a p ≡ changed g a p }
    ensures other_pieces { (f g : List Piece → D) (a : Act) (ps : List Piece)
        (p : Part (List Piece))
        → EachContent (λ qs. f qs ≡ g qs) p → IfSome (content_of a) (λ qs. f ps ≡ g qs)
        → (content_of a ≡ None → EachActContent (λ qs. f qs ≡ g qs) a)
        → changed f (act_with a ps) (part_value f p) ≡ changed g a (part_value g p) }
{}

/// After a change a container has content that it had and content that the act brings, and no other
/// content. A container without blobs has no content, and if a container is read, its contents are
/// the contents that were read. What is said here of a content is that two functions agree on it;
/// the lemmas in proofs/EachContents.antt say the same for any statement about a content.
pub fn a_change_adds_its_own_content_alone<C, D, E>()
    ensures part { (g h : C → D) (f : List Piece → C) (a : Act) (p : Part C)
        → EachContent (λ c. g c ≡ h c) p → EachActContent (λ ps. g (f ps) ≡ h (f ps)) a
        → EachContent (λ c. g c ≡ h c) (changed f a p) }
    ensures world { (g h : C → D) (f : List Piece → C) (w : World C) (c : KeyedAct)
        → EachWorldContent (λ x. g x ≡ h x) w → EachActContent (λ ps. g (f ps) ≡ h (f ps)) c.act
        → EachWorldContent (λ x. g x ≡ h x) (changed_in f w c) }
    ensures brought { (g h : List Piece → D) (a : Act) (ps : List Piece) → content_of a ≡ Some ps
        → EachActContent (λ qs. g qs ≡ h qs) a ↔ (g ps ≡ h ps) }
    ensures any { (g h : List Piece → D) (a : Act) → ((ps : List Piece) → g ps ≡ h ps)
        → EachActContent (λ ps. g ps ≡ h ps) a }
    ensures none { (g h : C → D) → EachContent (λ c. g c ≡ h c) no_part }
    ensures empty { (g h : C → D) (p : Part C) → p.blobs ≡ finite.empty
        → EachContent (λ c. g c ≡ h c) p }
    ensures empty_world { (g h : C → D) → EachWorldContent (λ c. g c ≡ h c) finite.empty }
    ensures read { (g h : D → E) (f : C → D) (p : Part C)
        → EachContent (λ d. g d ≡ h d) (part_value f p) ↔ EachContent (λ c. g (f c) ≡ h (f c)) p }
{}
