//! Laws of replays. Each is the contract of a function that does nothing.
ghost use Rattle.std.specs.Prelude.{◌≡◌, ℕ, List, ◌∷◌, ◌++◌, Some};
ghost use Rattle.std.specs.FinMap as finite;
ghost use Rattle.stamp_types.specs.World.{World};
ghost use Rattle.access_rules.specs.declared.keys.Keys.{Keys};
ghost use Rattle.request_form.specs.HeadForms.{Form, with_body};
ghost use Rattle.reply_form.specs.ReplyBytes.{reply_bytes};
ghost use Rattle.stamp_model.specs.Runs.{timed, replies_to, reply_to_one, world_after_all, world_after_one};
ghost use Rattle.http_front.specs.Streams.{Item, interim};
ghost use Rattle.http_front.specs.Streams.Item.{Requested};
ghost use Rattle.stamp_main.specs.Replays.{IsOutput, output_of, requests_of, written_for};

/// A replay has exactly one output for each input.
pub(crate) fn an_input_has_one_output()
    ensures some { (keys : Keys) (time : ℕ) (input : List ℕ) →
        (output : List ℕ) × IsOutput keys time input output }
    ensures once { (keys : Keys) (time : ℕ) (input output other : List ℕ) →
        IsOutput keys time input output → IsOutput keys time input other → output ≡ other }
{}

/// What a replay writes for a request is the model's reply to it, at the containers that the requests
/// before it leave. It comes after what is written for the items before the request, and before what is
/// written for the items after it.
pub(crate) fn a_replay_writes_the_replies_of_the_model()
    ensures { (keys : Keys) (time : ℕ) (front : List Item) (form : Form) (body : List ℕ)
        (rest : List Item) →
        (before : World (List ℕ)) × (after : World (List ℕ))
        × (before ≡ world_after_all finite.empty (requests_of keys time front))
        × (after ≡ world_after_one before (timed keys (with_body form body) time))
        × (output_of keys time (front ++ Requested form body ∷ rest)
        ≡ output_of keys time front
        ++ (interim form
        ++ reply_bytes (reply_to_one before (timed keys (with_body form body) time)) time
        (Some form.ask.signing.verb) form.closes)
        ++ written_for time rest (replies_to after (requests_of keys time rest))) }
{}
