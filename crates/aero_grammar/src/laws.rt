//! The laws of texts that come in parts.
ghost use Rattle.aero_grammar.specs.Laws.{BlocksReadAsTheirJoin, CappedTextReadsAsTheText};

/// Blocks of whole lines read, one after the other, as the text that they make up.
pub fn blocks_read_as_their_join()
    ensures { BlocksReadAsTheirJoin }
{}

/// A text reads as its front up to the point at which it is known that a line is too long.
pub fn a_capped_text_reads_as_the_text()
    ensures { CappedTextReadsAsTheText }
{}
