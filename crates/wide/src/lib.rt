// An exact number is an integer beyond the range of i64, such as the product of two i64, held in two words with 2^127 + 2^63 added. So its upper
// word is its window and its lower word its wrapped value, each as the word of an i64, and exact numbers are in the order of their words, the upper
// first. Special are exact numbers that are 2^64 - 1 or more apart: their wrapped values are the whole range.
#![tactic(auto)]

pub mod corners;
pub mod exact;
pub mod product;
pub mod spread;
pub mod word;
