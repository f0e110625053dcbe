//! What may be handed to another thread, or lent to several. There is nothing to run.
use super::words::Words;
use grs_base::threads::crosses;

/// Lock words may be handed to another thread, and lent to several.
pub fn words_cross(words: &Words) {
    crosses(words)
}
