// Laws of bytes laid into memory as far apart as the columns of a row, one row below the other, and of the rectangle that they fill.
// It holds no code. In specs/ stand the names by which the functions that draw enlarged cells say what they write.
#![tactic(auto)]
