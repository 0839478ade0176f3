// The leaf printer's text, written into a buffer piece by piece. Each function writes from an offset on and gives the offset behind what it wrote.

#![tactic(auto)]

pub mod digits; // digits.rt: bytes, numbers in decimal, keys in hexadecimal
pub mod lines; // lines.rt: a leaf's line, and the lines that are no leaf's
