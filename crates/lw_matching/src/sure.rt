//! How much of a text's cut into tokens stands, whatever follows the text.
//!
//! Two texts that begin alike need not be cut alike there: behind a name may stand another letter of it, behind `=` another `=`, and an
//! open comment takes in what was cut behind its first byte. [`sure_tokens`] tells how many tokens of a front stand all the same, so that
//! whoever puts one text after the other behind it need not cut the front each time, but only what is behind those tokens.
//!
//! Its model: texts, keywords and patterns are lists of bytes, tokens are plain data, and a cut is what `lw_tokens` says that it is. An NFA
//! is that of a terminal's pattern, as `lw_matching` makes it.
//!
//! It promises that the tokens which it counts begin the cut of every text that begins with the front
//! (`specs/Front.antt`), for every lexicon with these keywords whose terminals have these NFAs, be the front a text
//! that can be cut up to its end or not. It never has to count one: where it counts fewer, whoever asks cuts more
//! anew, and never wrong. [`stays`] has the laws by which this is so (`specs/Stays.antt`), and those by which what is
//! left is cut by itself: a text has a cut exactly where the text behind a place of its cut has one, and the tokens
//! of the whole are those before the place and these, moved to it (`specs/Parted.antt`). [`next_stays`] says of what
//! stands next at the start of a text that it does whatever follows. That may be so and not be said.
//!
//! How it is done. A token hangs on the keywords that the text begins with and on what the terminals match there. The keywords stay the
//! same if none begins with all that is left of the text and goes on behind it. The terminals are asked in order, up to the one that is
//! the token, and all of them where a keyword is the token: each of these has to match the same whatever follows, as `lw_matching` foresees
//! it. The first token of which this is not known ends the count, since the tokens behind it may begin elsewhere.
//!
//! What it costs: for each token a look at every keyword, and a walk for each terminal that is asked. The steps of the walker bound all
//! walks together.
mod front;
mod laws;
mod next;

pub use front::sure_tokens;
pub use laws::stays;
pub use next::next_stays;
