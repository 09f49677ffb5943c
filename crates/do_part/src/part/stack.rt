//! What happens to the invocations of a part.
mod answering;
mod calling;
mod changing;
mod invoking;
mod late;
mod pushing;
mod standing;
mod stepping;
