// Examples of the library crates, run through their public calls. A crate's tests are proved together with the crate once
// more; here they are proved alone.
#![tactic(auto)]

#[cfg(test)]
mod closings;
#[cfg(test)]
mod crediting;
#[cfg(test)]
mod fillings;
#[cfg(test)]
mod ledgers;
#[cfg(test)]
mod reading;
#[cfg(test)]
mod replays;
#[cfg(test)]
mod sentences;
#[cfg(test)]
mod tidyings;
#[cfg(test)]
mod walks;
