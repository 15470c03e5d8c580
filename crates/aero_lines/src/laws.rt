//! That the blocks joined are the text.
ghost use Rattle.aero_lines.specs.Laws.{BlocksAreTheText};

/// However a text was cut into pieces, the blocks joined are the text, or its front up to the first
/// 4,097 bytes of the first line that is too long, and each block but the last ends a line.
pub fn the_blocks_are_the_text()
    ensures { BlocksAreTheText }
{}
