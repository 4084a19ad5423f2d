// What a walker gives, for callers that hold none.
ghost use Rattle.std.specs.Prelude.{◌≡◌, ◌<◌, ◌^◌};
ghost use Rattle.line.specs.Walker.{step_of};
ghost use Rattle.line.specs.Parser.{with_answer, tokens_of};

use crate::parser::{Error, Parser, State, Stepped, Token};

// How many tokens a walker gives, and its last refusal.
#[derive(Clone, Copy)]
pub struct Tokens {
    pub count: usize,
    pub last: Option<Error>,
}

// The next token of a walker that stands at `pos`, and where it stands then.
pub fn token_at(line: &[u8], pos: usize, state: State) -> Stepped
    ensures { result ≡ step_of line.now pos state }
{
    let mut p = Parser {
        data: line,
        pos,
        state,
    };
    let answer = p.next_token();
    Stepped {
        answer,
        pos: p.pos,
        state: p.state,
    }
}

// A walker over a line is called up to its end, or to a refusal that leaves it where it stands. A loop that walks by the
// walker's own place: each step says where the next one starts.
pub fn count_tokens(line: &[u8]) -> Tokens
    ensures { result ≡ tokens_of line.now }
{
    let mut walker = Parser::new(line);
    let mut tokens = Tokens {
        count: 0,
        last: None,
    };
    while walker.pos < line.len() {
        let pos = walker.pos;
        tokens = counted(tokens, walker.next_token());
        if walker.pos <= pos {
            return tokens;
        }
    }
    tokens
}

// One answer more.
fn counted(tokens: Tokens, answer: Option<Result<Token, Error>>) -> Tokens
    requires { tokens.count < 2 ^ 63 }
    ensures { result ≡ with_answer tokens answer }
{
    match answer {
        Some(Ok(_)) => Tokens {
            count: tokens.count + 1,
            ..tokens
        },
        Some(Err(e)) => Tokens {
            last: Some(e),
            ..tokens
        },
        None => tokens,
    }
}
