/// What one step of a program's thread answers.
#[derive(Debug, Drop)]
pub enum Turn<F> {
    /// It runs on.
    Next,
    /// It makes a call, and waits for the reply.
    Calls,
    /// Its function ended with this value.
    Ends(u32),
    /// It is wrong.
    Wrong(F),
}
