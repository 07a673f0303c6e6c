// Laws of the memory: addresses, rectangles, strokes, spans and the glass, over the paper's definitions alone.
// It holds no code. In specs/ stand the names by which the functions on memory say what they make of it.
#![tactic(auto)]
