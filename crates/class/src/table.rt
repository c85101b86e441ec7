// The class of each code byte, in one table to be read beside IANA's list of CoAP codes.
ghost use Rattle.std.specs.Prelude.{◌≡◌};
ghost use Rattle.class.specs.Table.{class_named};

use crate::{MessageClass, RequestType, ResponseType};

// The names of the table's entries, each the place of its class among those that have a name (specs/Class.antt). They are
// numbers, since a constant of 256 `MessageClass` is more than the checker takes.
const EMPTY: u8 = 0;

const GET: u8 = 1;

const POST: u8 = 2;

const PUT: u8 = 3;

const DELETE: u8 = 4;

const FETCH: u8 = 5;

const PATCH: u8 = 6;

const IPATCH: u8 = 7;

const CREATED: u8 = 8;

const DELETED: u8 = 9;

const VALID: u8 = 10;

const CHANGED: u8 = 11;

const CONTENT: u8 = 12;

const CONTINUE: u8 = 13;

const BAD_REQUEST: u8 = 14;

const UNAUTHORIZED: u8 = 15;

const BAD_OPTION: u8 = 16;

const FORBIDDEN: u8 = 17;

const NOT_FOUND: u8 = 18;

const METHOD_NOT_ALLOWED: u8 = 19;

const NOT_ACCEPTABLE: u8 = 20;

const CONFLICT: u8 = 21;

const PRECONDITION_FAILED: u8 = 22;

const REQUEST_ENTITY_TOO_LARGE: u8 = 23;

const UNSUPPORTED_CONTENT_FORMAT: u8 = 24;

const REQUEST_ENTITY_INCOMPLETE: u8 = 25;

const UNPROCESSABLE_ENTITY: u8 = 26;

const TOO_MANY_REQUESTS: u8 = 27;

const INTERNAL_SERVER_ERROR: u8 = 28;

const NOT_IMPLEMENTED: u8 = 29;

const BAD_GATEWAY: u8 = 30;

const SERVICE_UNAVAILABLE: u8 = 31;

const GATEWAY_TIMEOUT: u8 = 32;

const PROXYING_NOT_SUPPORTED: u8 = 33;

const HOP_LIMIT_REACHED: u8 = 34;

const RESERVED: u8 = 35;

// The entry of each code byte, from 0.00 to 7.31.
pub const CLASSES: [u8; 256] = [
    EMPTY, // 0.00
    GET, // 0.01
    POST, // 0.02
    PUT, // 0.03
    DELETE, // 0.04
    FETCH, // 0.05
    PATCH, // 0.06
    IPATCH, // 0.07
    RESERVED, // 0.08
    RESERVED, // 0.09
    RESERVED, // 0.10
    RESERVED, // 0.11
    RESERVED, // 0.12
    RESERVED, // 0.13
    RESERVED, // 0.14
    RESERVED, // 0.15
    RESERVED, // 0.16
    RESERVED, // 0.17
    RESERVED, // 0.18
    RESERVED, // 0.19
    RESERVED, // 0.20
    RESERVED, // 0.21
    RESERVED, // 0.22
    RESERVED, // 0.23
    RESERVED, // 0.24
    RESERVED, // 0.25
    RESERVED, // 0.26
    RESERVED, // 0.27
    RESERVED, // 0.28
    RESERVED, // 0.29
    RESERVED, // 0.30
    RESERVED, // 0.31
    RESERVED, // 1.00
    RESERVED, // 1.01
    RESERVED, // 1.02
    RESERVED, // 1.03
    RESERVED, // 1.04
    RESERVED, // 1.05
    RESERVED, // 1.06
    RESERVED, // 1.07
    RESERVED, // 1.08
    RESERVED, // 1.09
    RESERVED, // 1.10
    RESERVED, // 1.11
    RESERVED, // 1.12
    RESERVED, // 1.13
    RESERVED, // 1.14
    RESERVED, // 1.15
    RESERVED, // 1.16
    RESERVED, // 1.17
    RESERVED, // 1.18
    RESERVED, // 1.19
    RESERVED, // 1.20
    RESERVED, // 1.21
    RESERVED, // 1.22
    RESERVED, // 1.23
    RESERVED, // 1.24
    RESERVED, // 1.25
    RESERVED, // 1.26
    RESERVED, // 1.27
    RESERVED, // 1.28
    RESERVED, // 1.29
    RESERVED, // 1.30
    RESERVED, // 1.31
    RESERVED, // 2.00
    CREATED, // 2.01
    DELETED, // 2.02
    VALID, // 2.03
    CHANGED, // 2.04
    CONTENT, // 2.05
    RESERVED, // 2.06
    RESERVED, // 2.07
    RESERVED, // 2.08
    RESERVED, // 2.09
    RESERVED, // 2.10
    RESERVED, // 2.11
    RESERVED, // 2.12
    RESERVED, // 2.13
    RESERVED, // 2.14
    RESERVED, // 2.15
    RESERVED, // 2.16
    RESERVED, // 2.17
    RESERVED, // 2.18
    RESERVED, // 2.19
    RESERVED, // 2.20
    RESERVED, // 2.21
    RESERVED, // 2.22
    RESERVED, // 2.23
    RESERVED, // 2.24
    RESERVED, // 2.25
    RESERVED, // 2.26
    RESERVED, // 2.27
    RESERVED, // 2.28
    RESERVED, // 2.29
    RESERVED, // 2.30
    CONTINUE, // 2.31
    RESERVED, // 3.00
    RESERVED, // 3.01
    RESERVED, // 3.02
    RESERVED, // 3.03
    RESERVED, // 3.04
    RESERVED, // 3.05
    RESERVED, // 3.06
    RESERVED, // 3.07
    RESERVED, // 3.08
    RESERVED, // 3.09
    RESERVED, // 3.10
    RESERVED, // 3.11
    RESERVED, // 3.12
    RESERVED, // 3.13
    RESERVED, // 3.14
    RESERVED, // 3.15
    RESERVED, // 3.16
    RESERVED, // 3.17
    RESERVED, // 3.18
    RESERVED, // 3.19
    RESERVED, // 3.20
    RESERVED, // 3.21
    RESERVED, // 3.22
    RESERVED, // 3.23
    RESERVED, // 3.24
    RESERVED, // 3.25
    RESERVED, // 3.26
    RESERVED, // 3.27
    RESERVED, // 3.28
    RESERVED, // 3.29
    RESERVED, // 3.30
    RESERVED, // 3.31
    BAD_REQUEST, // 4.00
    UNAUTHORIZED, // 4.01
    BAD_OPTION, // 4.02
    FORBIDDEN, // 4.03
    NOT_FOUND, // 4.04
    METHOD_NOT_ALLOWED, // 4.05
    NOT_ACCEPTABLE, // 4.06
    RESERVED, // 4.07
    REQUEST_ENTITY_INCOMPLETE, // 4.08
    CONFLICT, // 4.09
    RESERVED, // 4.10
    RESERVED, // 4.11
    PRECONDITION_FAILED, // 4.12
    REQUEST_ENTITY_TOO_LARGE, // 4.13
    RESERVED, // 4.14
    UNSUPPORTED_CONTENT_FORMAT, // 4.15
    RESERVED, // 4.16
    RESERVED, // 4.17
    RESERVED, // 4.18
    RESERVED, // 4.19
    RESERVED, // 4.20
    RESERVED, // 4.21
    UNPROCESSABLE_ENTITY, // 4.22
    RESERVED, // 4.23
    RESERVED, // 4.24
    RESERVED, // 4.25
    RESERVED, // 4.26
    RESERVED, // 4.27
    RESERVED, // 4.28
    TOO_MANY_REQUESTS, // 4.29
    RESERVED, // 4.30
    RESERVED, // 4.31
    INTERNAL_SERVER_ERROR, // 5.00
    NOT_IMPLEMENTED, // 5.01
    BAD_GATEWAY, // 5.02
    SERVICE_UNAVAILABLE, // 5.03
    GATEWAY_TIMEOUT, // 5.04
    PROXYING_NOT_SUPPORTED, // 5.05
    RESERVED, // 5.06
    RESERVED, // 5.07
    HOP_LIMIT_REACHED, // 5.08
    RESERVED, // 5.09
    RESERVED, // 5.10
    RESERVED, // 5.11
    RESERVED, // 5.12
    RESERVED, // 5.13
    RESERVED, // 5.14
    RESERVED, // 5.15
    RESERVED, // 5.16
    RESERVED, // 5.17
    RESERVED, // 5.18
    RESERVED, // 5.19
    RESERVED, // 5.20
    RESERVED, // 5.21
    RESERVED, // 5.22
    RESERVED, // 5.23
    RESERVED, // 5.24
    RESERVED, // 5.25
    RESERVED, // 5.26
    RESERVED, // 5.27
    RESERVED, // 5.28
    RESERVED, // 5.29
    RESERVED, // 5.30
    RESERVED, // 5.31
    RESERVED, // 6.00
    RESERVED, // 6.01
    RESERVED, // 6.02
    RESERVED, // 6.03
    RESERVED, // 6.04
    RESERVED, // 6.05
    RESERVED, // 6.06
    RESERVED, // 6.07
    RESERVED, // 6.08
    RESERVED, // 6.09
    RESERVED, // 6.10
    RESERVED, // 6.11
    RESERVED, // 6.12
    RESERVED, // 6.13
    RESERVED, // 6.14
    RESERVED, // 6.15
    RESERVED, // 6.16
    RESERVED, // 6.17
    RESERVED, // 6.18
    RESERVED, // 6.19
    RESERVED, // 6.20
    RESERVED, // 6.21
    RESERVED, // 6.22
    RESERVED, // 6.23
    RESERVED, // 6.24
    RESERVED, // 6.25
    RESERVED, // 6.26
    RESERVED, // 6.27
    RESERVED, // 6.28
    RESERVED, // 6.29
    RESERVED, // 6.30
    RESERVED, // 6.31
    RESERVED, // 7.00
    RESERVED, // 7.01
    RESERVED, // 7.02
    RESERVED, // 7.03
    RESERVED, // 7.04
    RESERVED, // 7.05
    RESERVED, // 7.06
    RESERVED, // 7.07
    RESERVED, // 7.08
    RESERVED, // 7.09
    RESERVED, // 7.10
    RESERVED, // 7.11
    RESERVED, // 7.12
    RESERVED, // 7.13
    RESERVED, // 7.14
    RESERVED, // 7.15
    RESERVED, // 7.16
    RESERVED, // 7.17
    RESERVED, // 7.18
    RESERVED, // 7.19
    RESERVED, // 7.20
    RESERVED, // 7.21
    RESERVED, // 7.22
    RESERVED, // 7.23
    RESERVED, // 7.24
    RESERVED, // 7.25
    RESERVED, // 7.26
    RESERVED, // 7.27
    RESERVED, // 7.28
    RESERVED, // 7.29
    RESERVED, // 7.30
    RESERVED, // 7.31
];

// The class that an entry names. A reserved one is that of the code byte itself.
pub fn class_named(entry: u8, number: u8) -> MessageClass
    ensures { result ≡ class_named entry number }
{
    match entry {
        EMPTY => MessageClass::Empty,
        GET => MessageClass::Request(RequestType::Get),
        POST => MessageClass::Request(RequestType::Post),
        PUT => MessageClass::Request(RequestType::Put),
        DELETE => MessageClass::Request(RequestType::Delete),
        FETCH => MessageClass::Request(RequestType::Fetch),
        PATCH => MessageClass::Request(RequestType::Patch),
        IPATCH => MessageClass::Request(RequestType::IPatch),
        CREATED => MessageClass::Response(ResponseType::Created),
        DELETED => MessageClass::Response(ResponseType::Deleted),
        VALID => MessageClass::Response(ResponseType::Valid),
        CHANGED => MessageClass::Response(ResponseType::Changed),
        CONTENT => MessageClass::Response(ResponseType::Content),
        CONTINUE => MessageClass::Response(ResponseType::Continue),
        BAD_REQUEST => MessageClass::Response(ResponseType::BadRequest),
        UNAUTHORIZED => MessageClass::Response(ResponseType::Unauthorized),
        BAD_OPTION => MessageClass::Response(ResponseType::BadOption),
        FORBIDDEN => MessageClass::Response(ResponseType::Forbidden),
        NOT_FOUND => MessageClass::Response(ResponseType::NotFound),
        METHOD_NOT_ALLOWED => MessageClass::Response(ResponseType::MethodNotAllowed),
        NOT_ACCEPTABLE => MessageClass::Response(ResponseType::NotAcceptable),
        CONFLICT => MessageClass::Response(ResponseType::Conflict),
        PRECONDITION_FAILED => MessageClass::Response(ResponseType::PreconditionFailed),
        REQUEST_ENTITY_TOO_LARGE => MessageClass::Response(ResponseType::RequestEntityTooLarge),
        UNSUPPORTED_CONTENT_FORMAT => MessageClass::Response(
            ResponseType::UnsupportedContentFormat,
        ),
        REQUEST_ENTITY_INCOMPLETE => MessageClass::Response(ResponseType::RequestEntityIncomplete),
        UNPROCESSABLE_ENTITY => MessageClass::Response(ResponseType::UnprocessableEntity),
        TOO_MANY_REQUESTS => MessageClass::Response(ResponseType::TooManyRequests),
        INTERNAL_SERVER_ERROR => MessageClass::Response(ResponseType::InternalServerError),
        NOT_IMPLEMENTED => MessageClass::Response(ResponseType::NotImplemented),
        BAD_GATEWAY => MessageClass::Response(ResponseType::BadGateway),
        SERVICE_UNAVAILABLE => MessageClass::Response(ResponseType::ServiceUnavailable),
        GATEWAY_TIMEOUT => MessageClass::Response(ResponseType::GatewayTimeout),
        PROXYING_NOT_SUPPORTED => MessageClass::Response(ResponseType::ProxyingNotSupported),
        HOP_LIMIT_REACHED => MessageClass::Response(ResponseType::HopLimitReached),
        _ => MessageClass::Reserved(number),
    }
}
