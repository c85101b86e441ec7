// The class of a code byte: the request and response codes that have names, and every other byte as reserved.
#![tactic(auto)]

ghost use Rattle.std.specs.Prelude.{◌≡◌, leb};
ghost use Rattle.class.specs.Class.{byte_of, byte_of_request, byte_of_response, class_of};

mod table;

// The detailed class (request/response) of a message with the code.
#[derive(Clone, Copy, Debug, PartialEq, Eq)]
pub enum MessageClass {
    Empty,
    Request(RequestType),
    Response(ResponseType),
    Reserved(u8),
}

impl MessageClass {
    // The class of a code byte. A byte that has no name is reserved, FF too.
    pub fn from_byte(number: u8) -> MessageClass
        ensures { result ≡ class_of number }
    {
        table::class_named(table::CLASSES[number as usize], number)
    }

    // The code byte of a class. A request or response that is not known has FF.
    pub fn to_byte(self) -> u8
        ensures { result ≡ byte_of self }
    {
        match self {
            MessageClass::Empty => 0x00,
            MessageClass::Request(r) => r.to_byte(),
            MessageClass::Response(r) => r.to_byte(),
            MessageClass::Reserved(c) => c,
        }
    }
}

// The request codes.
#[derive(Clone, Copy, Debug, PartialEq, Eq)]
pub enum RequestType {
    Get,
    Post,
    Put,
    Delete,
    Fetch,
    Patch,
    IPatch,
    UnKnown,
}

impl RequestType {
    // The code byte of a request.
    pub fn to_byte(self) -> u8
        ensures { result ≡ byte_of_request self }
    {
        match self {
            RequestType::Get => 0x01,
            RequestType::Post => 0x02,
            RequestType::Put => 0x03,
            RequestType::Delete => 0x04,
            RequestType::Fetch => 0x05,
            RequestType::Patch => 0x06,
            RequestType::IPatch => 0x07,
            RequestType::UnKnown => 0xFF,
        }
    }
}

// The response codes.
#[derive(Clone, Copy, Debug, PartialEq, Eq)]
pub enum ResponseType {
    // 200 Codes
    Created,
    Deleted,
    Valid,
    Changed,
    Content,
    Continue,

    // 400 Codes
    BadRequest,
    Unauthorized,
    BadOption,
    Forbidden,
    NotFound,
    MethodNotAllowed,
    NotAcceptable,
    Conflict,
    PreconditionFailed,
    RequestEntityTooLarge,
    UnsupportedContentFormat,
    RequestEntityIncomplete,
    UnprocessableEntity,
    TooManyRequests,

    // 500 Codes
    InternalServerError,
    NotImplemented,
    BadGateway,
    ServiceUnavailable,
    GatewayTimeout,
    ProxyingNotSupported,
    HopLimitReached,

    UnKnown,
}

impl ResponseType {
    // The code byte of a response.
    pub fn to_byte(self) -> u8
        ensures { result ≡ byte_of_response self }
    {
        match self {
            ResponseType::Created => 0x41,
            ResponseType::Deleted => 0x42,
            ResponseType::Valid => 0x43,
            ResponseType::Changed => 0x44,
            ResponseType::Content => 0x45,
            ResponseType::Continue => 0x5F,
            ResponseType::BadRequest => 0x80,
            ResponseType::Unauthorized => 0x81,
            ResponseType::BadOption => 0x82,
            ResponseType::Forbidden => 0x83,
            ResponseType::NotFound => 0x84,
            ResponseType::MethodNotAllowed => 0x85,
            ResponseType::NotAcceptable => 0x86,
            ResponseType::Conflict => 0x89,
            ResponseType::PreconditionFailed => 0x8C,
            ResponseType::RequestEntityTooLarge => 0x8D,
            ResponseType::UnsupportedContentFormat => 0x8F,
            ResponseType::RequestEntityIncomplete => 0x88,
            ResponseType::UnprocessableEntity => 0x96,
            ResponseType::TooManyRequests => 0x9D,
            ResponseType::InternalServerError => 0xA0,
            ResponseType::NotImplemented => 0xA1,
            ResponseType::BadGateway => 0xA2,
            ResponseType::ServiceUnavailable => 0xA3,
            ResponseType::GatewayTimeout => 0xA4,
            ResponseType::ProxyingNotSupported => 0xA5,
            ResponseType::HopLimitReached => 0xA8,
            ResponseType::UnKnown => 0xFF,
        }
    }

    // Whether the response says that something failed: codes 4.00 and up.
    pub fn is_error(self) -> bool
        ensures { result ≡ leb 128 (byte_of_response self) }
    {
        0x80 <= self.to_byte()
    }
}
