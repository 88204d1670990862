//! What may follow the rules of a grammar, and their parts.
//!
//! [`rule_followers`] finds for each rule the first `k` kinds of all that may follow a call of it in a sentence, up to the end.
//! [`behind_each`] goes on from what follows a row to what follows each of its parts.
//!
//! Their model: what follows each rule, or each part of a row, is a set of heads, and the sets stand in the order of the rules or
//! parts. What stands behind the calls in a part is said by a relation over the part's form (`BehindCall`), with no word on where the
//! part stands. A law over sites says that this is what follows the called rules (`AreClosedAfters`, `AreTrueAfters`).
//!
//! It promises that what follows a rule are all heads that there are and no others. A rule that no sentence calls is followed by
//! nothing, not even the end. What is behind a part of a row are exactly the heads that the parts behind it may begin with, before the
//! heads behind the row.
//!
//! What it costs: a row is gone through once, from its last part to its first, and each part behind the first once. A rule is
//! gone through when the end or a call has put new heads into its set, and not again until there are more, so a rule that is not
//! reached is not gone through at all, and one at most as often as it has heads. Each time takes what its parts take by
//! [`crate::First`]; those of a row in a row are looked at once for each of the rows that they are in.
mod behind;
mod following;
mod rounds;

pub use behind::behind_each;
pub use rounds::rule_followers;
