//! The traits of messages, and the four types that have them.
use http::{HeaderMap, Method, Request, Response, StatusCode, Uri, request, response};
use http_cache_semantics::{CacheError, RequestLike, ResponseLike, policy};
use std::alloc::Global;

fn target<R: RequestLike>(alloc: Global, req: &R) -> Result<Uri, CacheError> {
    req.uri(alloc)
}

fn has_target<R: RequestLike>(req: &R, other: &Uri) -> bool {
    req.is_same_uri(other)
}

fn method<R: RequestLike>(req: &R) -> &Method {
    req.method()
}

fn request_headers<R: RequestLike>(req: &R) -> &HeaderMap {
    req.headers()
}

fn status<R: ResponseLike>(res: &R) -> StatusCode {
    res.status()
}

fn headers<R: ResponseLike>(res: &R) -> &HeaderMap {
    res.headers()
}

fn is_request<R: policy::RequestLike>(_req: &R) {}

fn is_response<R: policy::ResponseLike>(_res: &R) {}

fn requests<Body>(whole: &Request<Body>, parts: &request::Parts) {
    is_request(whole);
    is_request(parts);
}

fn responses<Body>(whole: &Response<Body>, parts: &response::Parts) {
    is_response(whole);
    is_response(parts);
}
