// The state that a host keeps, as a record: document 01's state record. Any words are a state.
use answers::Answer;
use state_words::Words;

#[derive(Clone, Copy)]
pub struct State {
    pub words: Words,
}

// A call's answer and the state after it.
#[derive(Clone, Copy)]
pub struct Done {
    pub answer: Answer,
    pub state: State,
}
