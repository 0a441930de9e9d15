//! Laws of messages. Each function is empty: its contract is the law.
ghost use Rattle.walk_proto.specs.Laws.{RepliesHaveOneSpelling, RequestsHaveOneSpelling, SomeBytesGiveReplies, SomeBytesGiveRequests};

/// The rules of a request's fields hold exactly where some bytes give it.
pub fn some_bytes_give_requests()
    ensures { SomeBytesGiveRequests }
{}

/// The rules of a reply's fields hold exactly where some bytes give it.
pub fn some_bytes_give_replies()
    ensures { SomeBytesGiveReplies }
{}

/// No bytes give two requests.
pub fn requests_have_one_spelling()
    ensures { RequestsHaveOneSpelling }
{}

/// No bytes give two replies.
pub fn replies_have_one_spelling()
    ensures { RepliesHaveOneSpelling }
{}
