//! Tests of launches with `orders`: who goes next and the numbers of a seed (`choosers`); how the items that can go on
//! are searched (`searches`); the first byte at which buffers differ (`differing`); and what the filter of races lets
//! by (`filtered`). The contracts of `explore_runs` are met where nothing is found, and that of `race_filter` where
//! nothing is let by. Whole orders are tested by rows of `clsim explore`, beside orders that Python plays.
#![tactic(auto)]

#[cfg(test)]
mod choosers;
#[cfg(test)]
mod differing;
#[cfg(test)]
mod filtered;
#[cfg(test)]
mod searches;
