//! What holds of the definitions alone, as contracts of functions that do nothing.

ghost use Rattle.std.specs.Prelude.{◌≡◌, ℕ, Bool, List, All, IsUtf8, encode_utf8_all};
ghost use Rattle.dcsctp_tlv.specs.Number.{AreBytes};
ghost use Rattle.dcsctp_report.specs.JsonString.{IsString, string_of};
ghost use Rattle.dcsctp_report.specs.Printed.{IsPlain, IsPrinted, printed};

/// Proves that a text is written as a string of JSON that means this text.
pub fn json_string()
    ensures { (text : List ℕ) → IsUtf8 text → IsString (string_of text) text }
{}

/// Proves that a text is printed as its characters, as far as they are shown, and the escapes of
/// all other bytes: no character but those that are shown, and the backslash. It was printed of
/// these bytes alone.
pub fn printed_text()
    ensures printed { (is_word : Bool) (bytes : List ℕ)
        → IsPrinted is_word bytes (printed is_word bytes) }
    ensures plain { (is_word : Bool) (bytes text : List ℕ) → AreBytes bytes
        → IsPrinted is_word bytes text
        → (characters : List ℕ) × (encode_utf8_all characters ≡ text)
        × All (IsPlain is_word) characters }
    ensures one { (is_word : Bool) (bytes others text : List ℕ) → AreBytes bytes → AreBytes others
        → IsPrinted is_word bytes text → IsPrinted is_word others text → bytes ≡ others }
{}
