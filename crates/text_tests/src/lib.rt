//! The tokens and the trees of texts, by hand: what each is and where it stands, and the place of each refusal.
#![tactic(auto)]

#[cfg(test)]
mod documented;
#[cfg(test)]
mod refused;
#[cfg(test)]
mod refused_trees;
#[cfg(test)]
mod shown;
#[cfg(test)]
mod tables;
#[cfg(test)]
mod tokens_of_texts;
#[cfg(test)]
mod trees;
#[cfg(test)]
mod trees_of_texts;
