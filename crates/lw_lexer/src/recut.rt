//! Texts that begin alike, each cut into tokens from where they may differ.
//!
//! Completion writes many names behind one text. Cutting that text anew with each of them costs its length each time, though nearly all of
//! its tokens stand whatever is written behind them. A [`Recutter`] finds out once which tokens these are (`lw_matching::sure`), and then cuts the end
//! of the text alone, with what is written behind it.
//!
//! Its model: a recutter is seen as the end of the text, that end's own tokens, and the place where it begins (`specs/Recut.antt`); the
//! tokens before that place stand whatever follows. Where nothing is known of a pattern the end is the whole text: then all is cut anew, and
//! nothing else changes.
//!
//! It promises that [`Recutter::cut`] gives the tokens that are added behind those of the text, or says that the text with more behind is
//! not cut into these and others, and that [`Recutter::seam`] tells of a text that goes on behind that whether the tokens so far are the
//! first of its cut, or that no token of it ends there. It may also not know.
//!
//! What it costs. [`Recutter::of`] goes over the tokens of the text once. Then a cut takes the time of cutting the end and what is added, and
//! a seam that of the same and of some bytes behind it.
mod recut;
mod recutter;
mod seam;

pub use recut::Recut;
pub use recutter::Recutter;
pub use seam::Seam;
