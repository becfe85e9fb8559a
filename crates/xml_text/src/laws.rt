//! Laws of XML texts. Each law is the contract of a function that does nothing.
ghost use Rattle.std.specs.Prelude.{◌≡◌, ◌↔◌, ◌++◌, ◌∷◌, List, ℕ, true, Some};
ghost use Rattle.xml_text.specs.Elements.{IsTextElement};
ghost use Rattle.xml_text.specs.ElementReading.{text_element_at, unescaped};
ghost use Rattle.xml_text.specs.Escapes.{escaped, IsReadBack};
ghost use Rattle.xml_text.specs.Markup.{less_than};
ghost use Rattle.xml_text.specs.Reading.{tag_at, text_at};
ghost use Rattle.xml_text.specs.Texts.{Token, AreTokens, IsText};
ghost use Rattle.xml_text.specs.TokenReading.{body_tokens};
ghost use Rattle.xml_text.specs.Tokens.{IsTag, is_name, is_text};
ghost use Rattle.xml_text.specs.Tokens as tokens;
ghost use Rattle.xml_text.specs.WrittenElements.{element_text, prolog_text};
ghost use Rattle.xml_text.specs.WrittenTokens.{IsCleanText, field_tokens};

/// A tag is read as it is written, whatever comes after it. What is read as a tag is written as this tag.
pub fn a_tag_is_read_as_the_grammar_says()
    ensures read { (tag : tokens.Tag) (written rest : List ℕ) → IsTag tag written
        → tag_at (written ++ rest) ≡ Some (tag, rest) }
    ensures written { (tag : tokens.Tag) (text rest : List ℕ) → tag_at text ≡ Some (tag, rest)
        → (written : List ℕ) × IsTag tag written × (text ≡ written ++ rest) }
{}

/// A text is read up to the next tag. What is read has no `<`, and `&` in references only. Such a text is the writing of its value, and of
/// no other text.
pub fn a_text_is_read_as_the_grammar_says()
    ensures read { (written rest : List ℕ) → is_text written ≡ true
        → text_at (written ++ less_than ∷ rest) ≡ Some (written, less_than ∷ rest) }
    ensures written { (text written rest : List ℕ) → text_at text ≡ Some (written, rest)
        → (is_text written ≡ true) × (text ≡ written ++ rest) }
    ensures value { (value written : List ℕ) → IsText value written
        ↔ ((is_text written ≡ true) × (unescaped 0 written ≡ value)) }
{}

/// An element of a text alone is read as it is written, whatever comes after it. What is read as the element is written as this element.
pub fn an_element_of_a_text_is_read_as_the_grammar_says()
    ensures read { (name value written rest : List ℕ) (tokens : List Token)
        → IsTextElement name value tokens → AreTokens tokens written
        → text_element_at name (written ++ rest) ≡ Some (value, rest) }
    ensures written { (name value text rest : List ℕ)
        → text_element_at name text ≡ Some (value, rest)
        → (tokens : List Token) × (written : List ℕ) × IsTextElement name value tokens
        × AreTokens tokens written × (text ≡ written ++ rest) }
{}

/// A text that is written with references is read back as itself, and as no other text.
pub fn what_is_escaped_is_read_back()
    ensures { (text : List ℕ) → IsReadBack text (escaped text) }
{}

/// An element that was written is read as its two tags, and between them the text, if the text has bytes. This holds if the text is UTF-8
/// without control characters.
pub fn a_written_element_is_read_as_its_text()
    ensures { (name text : List ℕ) → is_name name ≡ true → IsCleanText text
        → body_tokens (prolog_text ++ element_text name text) ≡ Some (field_tokens name text) }
{}
