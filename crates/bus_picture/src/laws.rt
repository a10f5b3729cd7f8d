//! Laws of pictures, as functions: what each ensures is the law.
ghost use Rattle.bus_picture.specs.Escape.{EscapedIsPlain};

/// What is escaped neither opens nor ends a mark, nor a quoted value.
pub fn escaped_is_plain()
    ensures { EscapedIsPlain }
{}
