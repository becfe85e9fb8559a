//! Laws of ranges. Each is the contract of a function that does nothing.
ghost use Rattle.std.specs.Prelude.{◌≡◌, ℕ, List, Some, None, codes, false, true};
ghost use Rattle.stamp_values.specs.Fields.{first_value, is_sent};
ghost use Rattle.stamp_values.specs.Operations.{is_op};
ghost use Rattle.stamp_values.specs.declared.condition.ByteRange.{ByteRange};
ghost use Rattle.stamp_values.specs.declared.op.Op.{Op};
ghost use Rattle.stamp_values.specs.declared.op.Op.TheVariants.{GetBlob};
ghost use Rattle.stamp_values.specs.declared.signing.Field.{Field};
ghost use Rattle.request_form.specs.HeadFields.{are_digits};
ghost use Rattle.request_form.specs.HeadRanges.{HasRange, range_between, range_by, range_of, range_text};
ghost use Rattle.request_form.specs.Targets.{is_nothing};

/// A range is what its text prints: `bytes=`, digits, a hyphen, and digits or nothing. Such a text has the range between the
/// numbers of its digits, however many digits there are, and every text that has a range is such a text.
pub fn a_range_is_what_its_text_prints()
    ensures printed { (first last : List ℕ) → is_nothing first ≡ false
        → are_digits first ≡ true → are_digits last ≡ true
        → range_of (range_text first last) ≡ range_between first last }
    ensures read { (text : List ℕ) (range : ByteRange) → range_of text ≡ Some range → HasRange text range }
{}

/// A Get Blob asks for the range of x-ms-range if that was sent, also if Range was sent too; and else
/// for the range of Range. If the text is not a range, it asks for the whole blob. With If-Range it
/// asks for the whole blob, and so does each other operation.
pub fn a_head_asks_for_one_range()
    ensures own { (fields : List Field) (value : List ℕ)
        → is_sent fields (codes "if-range") ≡ false
        → first_value fields (codes "x-ms-range") ≡ Some value
        → range_by GetBlob fields ≡ range_of value }
    ensures plain { (fields : List Field) (value : List ℕ)
        → is_sent fields (codes "if-range") ≡ false
        → first_value fields (codes "x-ms-range") ≡ None
        → first_value fields (codes "range") ≡ Some value
        → range_by GetBlob fields ≡ range_of value }
    ensures conditional { (op : Op) (fields : List Field)
        → is_sent fields (codes "if-range") ≡ true → range_by op fields ≡ None }
    ensures other { (op : Op) (fields : List Field)
        → is_op GetBlob op ≡ false → range_by op fields ≡ None }
{}
