//! What holds of the texts of commands (RFC 9051, sections 2.2.1 and 4.3).

ghost use Rattle.command_texts.specs.TextLaws.{FirstPartsTellTags, NoTextIsAFront, TextsAreCut};

/// Each part of a command's text is cut off as one part.
pub fn texts_are_cut()
    ensures { TextsAreCut }
{}

/// No whole text of a command is the front of another text: where one has come, no part is awaited behind it.
pub fn no_text_is_a_front()
    ensures { NoTextIsAFront }
{}

/// The first part of a command's text tells its tag.
pub fn first_parts_tell_tags()
    ensures { FirstPartsTellTags }
{}
