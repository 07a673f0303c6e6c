// Laws of the downloads: the first place of a code, what storing and erasing keep, and what a define's note of a drop says.
// They are about the paper's definitions alone and cite no code.
#![tactic(auto)]
