//! What a connection answers, over the history of its turns and answers alone: which turn may come, what each moment
//! finds, what goes out, and for each call the rows of its answers. Definitions alone; docs/MEANING.md
//! leads through them.
#![tactic(auto)]
